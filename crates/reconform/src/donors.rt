//! The donors of an old reel, by their plan.
ghost use Rattle.std.specs.Prelude.{◌≡◌, ◌+◌, ◌<◌, [], length, Some, OnOk, IfOk};
ghost use Rattle.std.specs.BTreeMap.{get, Updates};
ghost use Rattle.reel_writer.specs.Reel.{frames_of};
ghost use Rattle.reconform.specs.inside.Donor.{AreLeast, donor_in, AddsDonor};
ghost use Rattle.reconform.specs.declared.plan.FramePlan.{FramePlan};

use crate::plan::{FramePlan, plan_at};
use conform_job::Job;
use resume_ledger::LedgerView;
use std::alloc::{AllocError, Global};
use std::collections::BTreeMap;

/// Donors by plan.
#[derive(Drop)]
pub(crate) struct Donors {
    by_plan: BTreeMap<FramePlan, u32>,
}

impl Donors {
    /// Of no frames.
    fn none(alloc: Global) -> Donors
        ensures { result.by_plan.entries ≡ [] }
    {
        Donors {
            by_plan: BTreeMap::new(alloc),
        }
    }

    /// For each plan that an acknowledged frame of the old job has, the least such frame.
    pub(crate) fn of(alloc: Global, job: &Job, view: &LedgerView) -> Result<Donors, AllocError>
        requires size { length view.now.gates ≡ frames_of job.now }
        ensures donors { IfOk result (λ donors. AreLeast job.now view.now.gates (frames_of job.now) donors.by_plan) }
    {
        let mut donors = Donors::none(alloc);
        for j in 0..job.count() {
            donors.consider(job, view, j)?;
        }
        Ok(donors)
    }

    /// Takes in frame `j` of the old job, behind those before it.
    fn consider(&mut self, job: &Job, view: &LedgerView, j: u32) -> Result<(), AllocError>
        requires size { length view.now.gates ≡ frames_of job.now }
        requires within { j < frames_of job.now }
        requires least { AreLeast job.now view.now.gates j self.old.by_plan }
        ensures least { OnOk result (AreLeast job.now view.now.gates (j + 1) self.new.by_plan) }
    {
        if view.is_acked(j) {
            self.add(plan_at(job, j), j)?;
            return Ok(());
        }
        Ok(())
    }

    /// The least frame that has the plan.
    pub(crate) fn get(&self, plan: FramePlan) -> Option<u32>
        ensures { result ≡ donor_in self.now.by_plan plan }
    {
        self.by_plan.get(&plan).copied()
    }

    /// Frame `j` has the plan: it is the donor where there was none.
    fn add(&mut self, plan: FramePlan, j: u32) -> Result<(), AllocError>
        ensures first { OnOk result (AddsDonor plan j self.old.by_plan self.new.by_plan) }
    {
        if self.by_plan.contains_key(&plan) {
            return Ok(());
        }
        set_number(&mut self.by_plan, plan, j)?;
        Ok(())
    }
}

/// Sets the number of a key.
fn set_number<K: Ord + Copy>(
    numbers: &mut BTreeMap<K, u32>,
    key: K,
    number: u32,
) -> Result<(), AllocError>
    ensures { OnOk result (Updates K.cmp numbers.old numbers.new key (Some number)) }
{
    numbers.insert(key, number)?;
    Ok(())
}
