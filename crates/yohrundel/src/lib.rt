// The calls for programs in other languages: numbers, lent slices and structs by value. include/yohrundel.h declares them for C.
#![tactic(auto)]

mod answers;
mod bank_calls;
mod device_calls;
mod request_calls;
mod script_calls;
mod update_calls;
