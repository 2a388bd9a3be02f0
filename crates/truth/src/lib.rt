// The truth of slope records: mathematics only.
#![tactic(auto)]
