//! From a JSON string's text to the bytes that it spells in base64.
#![tactic(auto)]

mod spelling;

pub use spelling::bytes_of_text;
