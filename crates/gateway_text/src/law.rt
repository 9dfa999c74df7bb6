//! What holds of every text that is written.
ghost use Rattle.gateway_text.specs.ReadBack.{AnswersReadBack};

/// The body of whatever reply is one JSON value that a reader gives back as the data that it was
/// written from, also with the newline that ends the answers of watches and keepalives. It does
/// nothing: its contract is the law.
pub fn answers_read_back()
    ensures { AnswersReadBack }
{}
