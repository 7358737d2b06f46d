// No code: the definitions of the calls, computed on short random histories, agree with the reference
// implementation in every answer and every word. The histories are in specs/.
#![tactic(auto)]
