// The calls as C has them, at both kinds. include/huqabo.h says what each takes, answers and leaves.
#![tactic(auto)]

mod fixed_kind;
mod sliding_kind;
