// The segments of a Representation while they are collected.
ghost use Rattle.std.specs.Prelude.{◌≡◌, ◌+◌, ◌-◌, ◌*◌, ◌<◌, ◌^◌, pos, ◌+ℤ◌, ◌<ℤ◌, [], ◌∷◌, ◌++◌, map, Some, IsNone, IfErr, OnOk};
ghost use Rattle.std.specs.Prelude.{MatchResult};
ghost use Rattle.exact_time.specs.Tick.{time_of};
ghost use Rattle.timeline.specs.Building.{placed_in};
ghost use Rattle.timeline.specs.declared.fault.TimeFault.TheVariants.{Memory};

use crate::TimeFault;
use crate::limits::Limits;
use crate::run::{Endless, Run};
use crate::run_table::RunTable;
use crate::shared_timeline::LaidTimeline;
use exact_time::Tick;
use std::alloc::Global;
use std::rc::Rc;

/// The segments so far.
#[derive(Drop)]
pub struct RunsBuilder {
    pub table: RunTable,
    pub endless: Option<Endless>,
    /// How many segments the runs have.
    pub total: u64,
    limits: Limits,
    /// The media time at which the last segment ends.
    former: u128,
}

impl RunsBuilder {
    ghost use Rattle.timeline.specs.Expansions.{Closed, Endless as GoesOn, repeated};
    ghost use Rattle.timeline.specs.Faults.{are_paired, is_apart};
    ghost use Rattle.timeline.specs.Building.{AreAdded, IsFaultOf, IsInTime, IsLaidOut, IsLastWith, extent_in, fault_of, former_end};
    ghost use Rattle.timeline.specs.Building.{members_so_far};
    ghost use Rattle.timeline.specs.RunSegments.{one_extent, timed};
    ghost use Rattle.timeline.specs.Ratios.{natural};

    pub fn new(alloc: Global, limits: Limits) -> RunsBuilder
        ensures none { members_so_far result ≡ [] }
        ensures former { former_end result ≡ None }
        ensures limits { result.limits ≡ limits }
        ensures begins { result.former ≡ 0 }
        ensures closed { IsNone result.endless }
        ensures laid { IsInTime result }
    {
        RunsBuilder {
            table: RunTable {
                laid: None,
                own: Vec::new(alloc),
            },
            endless: None,
            total: 0,
            limits,
            former: 0,
        }
    }

    /// Starts with the runs of a timeline.
    pub fn upon(alloc: Global, laid: Rc<LaidTimeline>, limits: Limits) -> RunsBuilder
        ensures laid { result.table.laid ≡ Some laid }
        ensures none { result.table.own.items ≡ [] }
        ensures closed { IsNone result.endless }
        ensures total { result.total ≡ laid.value.media.total }
        ensures limits { result.limits ≡ limits }
        ensures former { result.former ≡ laid.value.media.former }
    {
        let total = laid.media.total;
        let former = u128::from(laid.media.former);
        RunsBuilder {
            table: RunTable {
                laid: Some(laid),
                own: Vec::new(alloc),
            },
            endless: None,
            total,
            limits,
            former,
        }
    }

    /// The media time at which the last segment ends.
    pub fn former(&self) -> u128
        ensures { result ≡ self.now.former }
    {
        self.former
    }

    /// Whether there are as many listed names as segments, where names are listed.
    #[tactic(auto, using(crate::proofs::Laid::paired_closed))]
    pub fn is_paired(&self, names: Option<u64>) -> bool
        requires { IsLaidOut self.now }
        ensures { result ≡ are_paired names (members_so_far self.now) }
    {
        match names {
            None => true,
            Some(count) => self.endless.is_none() && self.total == count,
        }
    }

    /// Adds `count` segments of `step` ticks each, the first of which begins at a media time.
    pub fn add(&mut self, start: u128, step: u64, count: u128) -> Result<(), TimeFault>
        requires start { start < 2 ^ 64 }
        requires lasting { 0 < step }
        requires some { 0 < count }
        requires closed { IsNone self.old.endless }
        requires laid { IsInTime self.old }
        ensures members { let members = map Closed (repeated count (extent_in self.old.limits start step)) in
            MatchResult result (λ _. AreAdded self.old members self.new) (λ fault. IsFaultOf self.old members fault) }
        ensures limits { self.new.limits ≡ self.old.limits }
        ensures former { OnOk result (self.new.former ≡ start + count * step) }
        ensures closed { OnOk result (IsNone self.new.endless) }
        ensures laid { OnOk result (IsInTime self.new) }
    {
        self.judge(start, step)?;
        let end = start
            + count
                .saturating_mul(u128::from(step))
                .min(u128::from(u64::MAX));
        if self.limits.are_broken(end, step) {
            return Err(TimeFault::Range);
        }
        let count = count as u64;
        let run = Run {
            start: placed(start, self.limits),
            end: placed(start + u128::from(step), self.limits),
            step,
            count,
            before: self.total,
        };
        self.table.own.push(run)?;
        self.former = end;
        self.total += count;
        Ok(())
    }

    /// Adds a segment that was checked.
    pub fn add_one(&mut self, start: Tick, end: Tick) -> Result<(), TimeFault>
        requires closed { IsNone self.old.endless }
        requires laid { IsLaidOut self.old }
        requires countable { self.old.total < 2 ^ 63 }
        requires near { end.n <ℤ pos (2 ^ 64 - 1) }
        requires timed { natural (start.n +ℤ pos self.old.limits.origin) < 2 ^ 64 }
        ensures ok { OnOk result (members_so_far self.new ≡ members_so_far self.old ++ Closed (one_extent start end) ∷ []) }
        ensures err { IfErr result (λ fault. fault ≡ Memory) }
        ensures total { OnOk result (self.new.total ≡ self.old.total + 1) }
        ensures limits { OnOk result (self.new.limits ≡ self.old.limits) }
        ensures closed { OnOk result (IsNone self.new.endless) }
        ensures laid { OnOk result (IsLaidOut self.new) }
    {
        let run = self.last_with(start, end);
        self.table.own.push(run)?;
        self.total += 1;
        Ok(())
    }

    /// The run that a segment, after all others, ends: the last run, which is removed, where the segment continues it, and
    /// otherwise a run of its own.
    fn last_with(&mut self, start: Tick, end: Tick) -> Run
        requires laid { IsLaidOut self.old }
        requires countable { self.old.total < 2 ^ 63 }
        requires near { end.n <ℤ pos (2 ^ 64 - 1) }
        ensures { IsLastWith self.old (one_extent start end) (timed result) self.new }
    {
        if let Some(last) = self.table.own.last() {
            if let Some(run) = last.longer(start, end) {
                self.table.own.pop();
                return run;
            }
        }
        Run::one(start, end, self.total)
    }

    /// Adds segments that repeat without end.
    pub fn go_on(&mut self, start: u128, step: u64) -> Result<(), TimeFault>
        requires start { start < 2 ^ 64 }
        requires lasting { 0 < step }
        requires closed { IsNone self.old.endless }
        requires laid { IsInTime self.old }
        ensures members { let members = GoesOn (extent_in self.old.limits start step) ∷ [] in
            MatchResult result (λ _. AreAdded self.old members self.new) (λ fault. IsFaultOf self.old members fault) }
        ensures limits { self.new.limits ≡ self.old.limits }
        ensures laid { OnOk result (IsLaidOut self.new) }
    {
        if self.is_apart(start, step) {
            return Err(TimeFault::Step);
        }
        let start = placed(start, self.limits);
        let before = self.total;
        self.endless = Some(Endless {
            start,
            step,
            before,
        });
        Ok(())
    }

    /// Checks a segment's limits and its distance from the one before it.
    pub fn judge(&self, start: u128, step: u64) -> Result<(), TimeFault>
        requires start { start < 2 ^ 64 }
        requires near { self.now.former < 2 ^ 63 }
        ensures { let x = extent_in self.now.limits start step in
            MatchResult result (λ _. fault_of self.now.limits (former_end self.now) x ≡ None)
            (λ fault. fault_of self.now.limits (former_end self.now) x ≡ Some fault) }
    {
        if self.limits.are_broken(start + u128::from(step), step) {
            return Err(TimeFault::Range);
        }
        if self.is_apart(start, step) {
            return Err(TimeFault::Step);
        }
        Ok(())
    }

    /// Whether a segment begins more than half its duration before or after the end of the one before it.
    fn is_apart(&self, start: u128, step: u64) -> bool
        requires start { start < 2 ^ 64 }
        requires near { self.now.former < 2 ^ 63 }
        ensures { result ≡ is_apart (former_end self.now) (extent_in self.now.limits start step) }
    {
        self.total > 0 && u128::from(step) < 2 * start.abs_diff(self.former)
    }
}

/// A media time, relative to the Period's start.
#[inline(always)]
pub fn placed(media: u128, limits: Limits) -> Tick
    requires { media < 2 ^ 64 }
    ensures { time_of result ≡ placed_in limits media }
{
    Tick {
        n: media as i128 - i128::from(limits.origin),
        scale: limits.ticks,
    }
}
