ghost use Rattle.step_meaning.specs.FaultsHalt.{WellFormedFaultsHalt};
ghost use Rattle.step_meaning.specs.First.{SameFirstSteps};
ghost use Rattle.step_meaning.specs.FitsBounded.{FitsBounded, TracedSightsTyped};
ghost use Rattle.step_meaning.specs.FoldPrefixes.{FoldsPrefixes};
ghost use Rattle.step_meaning.specs.Limits.{OutcomeComputed};
ghost use Rattle.step_meaning.specs.Runs.{FlowsAgree};
ghost use Rattle.step_meaning.specs.Strict.{StrictRunsAgree};
ghost use Rattle.step_meaning.specs.TracedPrefixes.{TracedPrefixes};
ghost use Rattle.step_meaning.specs.TracedRuns.{WellFormedTraced};

/// Larger bounds give the same first steps of a run, with the verdicts before each.
pub fn same_first_steps()
    ensures { SameFirstSteps }
{}

/// The run with a log, which the direct instance of the flow gives, is the run.
pub fn flows_agree()
    ensures { FlowsAgree }
{}

/// The outcome of a run within limits on steps, cells and activations exists, is unique, and is computed along the run.
pub fn outcome_is_computed()
    ensures { OutcomeComputed }
{}

/// A run of a well-formed program that ends by a fault ends with a Halt step of that fault: it never does what no typed
/// program does.
pub fn faults_halt()
    ensures { WellFormedFaultsHalt }
{}

/// A predicate or term that fits is bounded in each view whose cells, parameters and result hold values of their types.
pub fn fits_bounded()
    ensures { FitsBounded }
{}

/// Each step of a traced list gives such a view.
pub fn traced_sights_typed()
    ensures { TracedSightsTyped }
{}

/// The steps of a run of a well-formed program, on any input and for any bound, are a traced list;
/// the memory of each has a frame for the step's activation with its function's variables, and the variables of file
/// scope, with the cells and types that the program declares.
pub fn runs_are_traced()
    ensures { WellFormedTraced }
{}

/// The fold of the first steps of a traced list is the beginning of the fold of the list.
pub fn folds_prefixes()
    ensures { FoldsPrefixes }
{}

/// The first steps of a traced list are traced.
pub fn traced_prefixes()
    ensures { TracedPrefixes }
{}

/// A program none of whose activations is left by the misuse of a register, whatever its arguments and the world that it
/// begins in, has no run that uses a register which holds nothing, or one at another type than its own.
pub fn strict_runs_agree()
    ensures { StrictRunsAgree }
{}
