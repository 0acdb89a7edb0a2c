// Laws on the refusals of this crate.
ghost use Rattle.std.specs.Prelude.{◌≡◌, ◌≢◌};
ghost use Rattle.px_actions.specs.Faults.{refusal};
ghost use Rattle.px_actions.specs.declared.faults.ActionFault.{ActionFault};
ghost use Rattle.px_actions.specs.declared.faults.ActionFault.TheVariants as action;
ghost use Rattle.px_patterns.specs.Faults.{pattern_fault_name, pattern_fault_number};
ghost use Rattle.px_patterns.specs.declared.faults.PatternFault.{PatternFault};
ghost use Rattle.px_patterns.specs.declared.faults.PatternFault.TheVariants as pattern;
ghost use Rattle.px_action_files.specs.Faults.{refusal_name};

/// A number names the refusal of a word or of a pattern as their own crates do.
pub fn numbers_name_refusals()
    ensures words { (fault : ActionFault) → fault ≢ action.Mem → refusal_name (refusal fault).number ≡ (refusal fault).name }
    ensures patterns { (fault : PatternFault) → fault ≢ pattern.Mem → refusal_name (pattern_fault_number fault) ≡ pattern_fault_name fault }
{}
