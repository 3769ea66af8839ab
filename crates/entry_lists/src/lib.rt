// Lists of calls through the entry points: demands 2 and 3, and how many members closings answer, over the lent bytes of the state. No code.
#![tactic(auto)]
