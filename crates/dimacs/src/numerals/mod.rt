//! Numerals in lines.

pub(crate) mod numeral;
pub(crate) mod numeral_end;
