//! What a call of a client leads to.
use sdb_model::Answer;

#[derive(Drop)]
pub enum Next {
    /// Another call.
    Call,
    /// The statement is answered.
    Answer(Answer),
    /// The answer ends the transaction.
    End(Answer),
}
