// Bytes lent by callers in other languages: fields and numbers read from them and stored in them, for any bytes and any place.
#![tactic(auto)]

pub mod field;
pub mod number;
