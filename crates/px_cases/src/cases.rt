//! Cases: files in, streams and answers, and what a command or a session makes of them.
mod fields;
mod runs;
mod setups;
mod wants;

use crate::cases::fields::{Case, Key, read_cases};
use crate::cases::runs::{RunCut, RunPlan, Seen, configs, run_command, run_session};
use crate::cases::setups::{Device, Failing, Origin, Setup};
use crate::cases::wants::{CaseDifference, Wants};
use px_config::Config;
use px_leaf_rows::{Fault, Misread, Report};
use std::alloc::Global;
use std::sync::Arc;
use std::thread::Threads;

/// The most calls of a device that fail in turn.
const CALL_LIMIT: u64 = 1_000;

/// The most bytes of a text that are told.
const TOLD_LIMIT: usize = 200;

/// What is told of a text: of a long one the part from a place on.
fn shortened(text: &[u8], from: usize) -> &[u8] {
    let behind = text.get(from..).unwrap_or(&[]);
    behind.get(..TOLD_LIMIT).unwrap_or(behind)
}

/// A case, what it wants of its runs, and of what they are: of the session by itself where configurations stand, else of the command.
#[derive(Drop)]
struct Trial<'t, 's, R> {
    rt: &'t R,
    alloc: Global,
    setup: &'t Setup<'s>,
    wants: &'t Wants<'s>,
    configs: Option<Vec<Arc<Config>>>,
    /// Whether `cuts each` means each place, and not single bytes alone.
    at_each_place: bool,
}

impl<R: Threads + Sync> Trial<'_, '_, R> {
    fn run(&self, plan: &RunPlan) -> Result<Seen, Fault> {
        match &self.configs {
            Some(configs) => run_session(self.rt, self.setup, configs.as_slice(), plan),
            None => run_command(self.rt, self.setup, plan),
        }
    }

    /// Whether its runs use the device.
    fn uses(&self, device: Device) -> bool {
        match &self.configs {
            Some(_) => device != Device::Files && device != Device::ErrorWrite,
            None => !device.is_dialled(),
        }
    }

    /// Tells a difference, and of which run it is. Whether there is none.
    fn tell(
        &self,
        report: &mut Report,
        difference: Option<CaseDifference<'_>>,
        run: &str,
    ) -> Result<bool, Fault> {
        let Some(CaseDifference { line, want, got }) = difference else {
            return Ok(true);
        };
        let same = want.iter().zip(got).take_while(|(w, g)| w == g).count();
        let from = if want.len().max(got.len()) <= TOLD_LIMIT {
            0
        } else {
            same.saturating_sub(TOLD_LIMIT / 4)
        };
        let place = if from == 0 {
            String::new(self.alloc)
        } else {
            format!(in self.alloc; " from byte {from} on")?
        };
        let run = format!(in self.alloc; "{place}{run}")?;
        let (want, got) = (shortened(want, from), shortened(got, from));
        report.differ(line, want, got, run.as_str())?;
        Ok(false)
    }

    /// Whether a run meets the case.
    fn hold(&self, report: &mut Report, cut: RunCut, run: &str) -> Result<bool, Fault> {
        let seen = self.run(&RunPlan { cut, failing: None })?;
        self.tell(report, self.wants.difference(&seen), run)
    }

    /// Whether the case is met however the streams are cut.
    fn hold_cuts(&self, report: &mut Report) -> Result<bool, Fault> {
        let mut longest = self.setup.input.len().max(self.wants.out().len());
        for origin in &self.setup.origins {
            if let Origin::Link(bytes) = origin {
                longest = longest.max(bytes.len());
            }
        }
        let places = if self.at_each_place { longest } else { 0 };
        for place in 1..places {
            let run = format!(in self.alloc; ", the streams cut at {place}")?;
            if !self.hold(report, RunCut::At(place), run.as_str())? {
                return Ok(false);
            }
        }
        self.hold(report, RunCut::Bytes, ", the streams cut into single bytes")
    }

    /// Lets each call of a device fail in turn, of a link those of one dial's, until none fails. In how many runs one failed, if each is
    /// as wanted.
    fn fail_calls(
        &self,
        report: &mut Report,
        device: Device,
        dial: usize,
    ) -> Result<Option<u64>, Fault> {
        for call in 0..CALL_LIMIT {
            let seen = self.run(&RunPlan {
                cut: RunCut::Given,
                failing: Some(Failing { device, call, dial }),
            })?;
            if self.wants.difference(&seen).is_none() {
                return Ok(Some(call));
            }
            let run = format!(in self.alloc; ", {device:?} {call} of {dial} failing")?;
            if !self.tell(report, self.wants.failed_difference(&seen), run.as_str())? {
                return Ok(None);
            }
            if device.is_dial() {
                return Ok(Some(1));
            }
        }
        Err(Fault::Form("the calls that fail in turn come to no end"))
    }

    /// Lets each call of a device fail in turn, of a link those of each dial's. Whether each run is as wanted.
    fn hold_failing(&self, report: &mut Report, device: Device) -> Result<bool, Fault> {
        let dials = if device.is_dialled() {
            self.setup.origins.len()
        } else {
            1
        };
        let mut times = 0u64;
        for dial in 0..dials {
            match self.fail_calls(report, device, dial)? {
                Some(more) => times = times.saturating_add(more),
                None => return Ok(false),
            }
        }
        match self.wants.times {
            Some((line, wanted)) if wanted != times => {
                let want = format!(in self.alloc; "{wanted}")?;
                let got = format!(in self.alloc; "{times}")?;
                report.differ(line, want.as_bytes(), got.as_bytes(), "")?;
                Ok(false)
            }
            Some(_) => Ok(true),
            None => Ok(true),
        }
    }

    /// Whether all runs of the case are as it wants.
    fn hold_all(&self, report: &mut Report) -> Result<bool, Fault> {
        if !self.hold(report, RunCut::Given, "")? {
            return Ok(false);
        }
        if self.setup.each_cut && !self.hold_cuts(report)? {
            return Ok(false);
        }
        for device in &self.setup.each_failing {
            if self.uses(*device) && !self.hold_failing(report, *device)? {
                return Ok(false);
            }
        }
        Ok(true)
    }
}

/// Runs the command, where it can be run so, and the session by itself, where the case says how that ends. Of the two the session
/// is cut at each place.
fn run_trial<R: Threads + Sync>(
    trial: &mut Trial<'_, '_, R>,
    case: &Case<'_>,
    report: &mut Report,
) -> Result<(), Fault> {
    let held = !trial.setup.is_command() || trial.hold_all(report)?;
    if held && case.has(Key::End) {
        trial.configs = Some(configs(trial.setup)?);
        trial.at_each_place = true;
        trial.hold_all(report)?;
    }
    Ok(())
}

fn run_case<R: Threads + Sync>(
    rt: &R,
    alloc: Global,
    case: &Case<'_>,
    report: &mut Report,
) -> Result<(), Misread> {
    let setup = Setup::of_case(alloc, case)?;
    let wants = Wants::of_case(alloc, case, &setup)?;
    report.count();
    let mut trial = Trial {
        rt,
        alloc,
        setup: &setup,
        wants: &wants,
        configs: None,
        at_each_place: !case.has(Key::End),
    };
    run_trial(&mut trial, case, report).map_err(|fault| case.misread(fault))
}

/// Runs the cases of a file's text.
pub(crate) fn run<R: Threads + Sync + AllocGlobal>(
    rt: &R,
    text: &str,
    report: &mut Report,
) -> Result<(), Misread> {
    for case in &read_cases(rt.alloc(), text)? {
        run_case(rt, rt.alloc(), case, report)?;
    }
    Ok(())
}
