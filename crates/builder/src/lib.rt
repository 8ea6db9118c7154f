// The builder: begin, the records in the order of their turns, each told or left unused, then finish. Each call is lent the buffer, is given
// the state that the last one returned, and hands a state back; any state and any buffer may be handed in.
#![tactic(auto)]

pub mod leaves; // a position left unused

pub use builder_begin::begin;
pub use builder_discovery::discovery;
pub use builder_finish::finish;
pub use builder_hfi::hfi;
pub use builder_host::host;
pub use builder_security::security;
pub use builder_ssns::ssns;
pub use leaves::leave;
