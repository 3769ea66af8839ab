// Lists of calls read back: the joined bytes of the machine's lists, and of a host's, come back from the walk as the items spelled, and no
// timestamp in them is out of the calendar. No code.
#![tactic(auto)]
