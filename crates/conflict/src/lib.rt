//! Conflicts between transactions: when a hart refuses a block that another asks for, which of two requests is the earlier, when a
//! refused transaction aborts, and a request that is out, with what is kept of its answers.
#![tactic(auto)]

mod laws;
mod order;
mod refusal;
mod request;

pub use laws::stamps_are_ordered;
pub use order::{earlier, must_abort};
pub use refusal::refuses;
pub use request::{
    Granted, PutOut, Request, content_back, have_answered, keep_ack, keep_grant, keep_nack,
    same_put, same_request,
};
