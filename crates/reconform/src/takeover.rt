//! What an adoption takes frames over from.
use crate::donors::Donors;
use conform_job::Job;
use resume_ledger::LedgerView;
use std::alloc::Global;

/// Two alike jobs, what the old folder acknowledges and which of its frames serve.
#[derive(Drop)]
pub(crate) struct Takeover<'n, 'o, 'v, 'd> {
    pub alloc: Global,
    pub new_job: &'n Job,
    pub old_job: &'o Job,
    /// What the old folder acknowledges.
    pub view: &'v LedgerView,
    pub donors: &'d Donors,
}
