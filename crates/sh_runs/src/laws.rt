//! What holds of the runs and of the fields that `specs/` defines, whatever the rules of a checker
//! are.
ghost use Rattle.sh_runs.specs.examples.Profile.{ProfileAsExpected};
ghost use Rattle.sh_runs.specs.Admitted.{AdmittedAsListed};
ghost use Rattle.sh_runs.specs.Rows.{RowsAreThere};
ghost use Rattle.sh_runs.specs.Theorem.{RunsGoOn, AwakeGoOn, FieldsStandWhole, FieldsStandSteady, OperandsCount};
ghost use Rattle.sh_runs.specs.examples.Events.{EventsExist};
ghost use Rattle.sh_runs.specs.examples.Runs.{RunsAsExpected};
ghost use Rattle.sh_runs.specs.examples.Forms.{FormsAsExpected};
ghost use Rattle.sh_runs.specs.examples.Fields.{FieldsAsExpected};
ghost use Rattle.sh_runs.specs.examples.Steps.{StepsAsExpected};
ghost use Rattle.sh_runs.specs.examples.Rows.{RowsAsExpected};

/// Runs do not get stuck. If a process lives and arithmetic has not ended the run, some process has
/// a step. Each live process that waits for nobody has one.
pub fn goes_on()
    ensures some { RunsGoOn }
    ensures each { AwakeGoOn }
{}

/// The fields of a word without a Split event are those without splitting. They depend on IFS and
/// on the directory only if the form of the word lets them.
pub fn fields()
    ensures whole { FieldsStandWhole }
    ensures steady { FieldsStandSteady }
{}

/// A word without a Split event, whose expansion does not end the process, gives at least as many
/// fields as its form counts.
pub fn operands()
    ensures { OperandsCount }
{}

/// A walk over a program that asks each command for its rule admits it exactly if no command is
/// refused.
pub fn admitted()
    ensures { AdmittedAsListed }
{}

/// Take an admitted program whose words give fields as words that are read do. In no run of it does
/// a process come to a utility that no row speaks of. Such a utility is `break`, `continue` or
/// `return` without its mark, or one that the profile refuses. Known programs that are refused come
/// to such a utility.
pub fn rows()
    ensures there { RowsAreThere }
    ensures known { RowsAsExpected }
{}

/// Known commands are refused, each by its rule, and known others are not.
pub fn profile()
    ensures { ProfileAsExpected }
{}

/// Runs of known small programs do what the standard says of them. These have lists, pipelines,
/// loops, `case`, functions, expansions and the built-in utilities that change a shell's
/// environment.
pub fn examples()
    ensures { RunsAsExpected }
{}

/// Known words have the counts and the quoting that their forms have.
pub fn form_rows()
    ensures { FormsAsExpected }
{}

/// Known small words expand to what the standard says of them: field splitting, parameters, their
/// uses and removals, tildes, arithmetic and patterns.
pub fn field_rows()
    ensures { FieldsAsExpected }
{}

/// Runs of known small programs end as the standard says. These have jumps, lists, redirections,
/// prefix assignments, the built-in utilities on each of their outcomes, calls, and processes that
/// share what they change.
pub fn step_rows()
    ensures { StepsAsExpected }
{}

/// Some runs of scripts come to the events that they are meant to have. One is a variable not set
/// at the start, or one that a part of a pipeline removes before the other part has its value.
/// Another is a value that is split.
pub fn events()
    ensures { EventsExist }
{}
