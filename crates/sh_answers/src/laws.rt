//! What holds of the answers that `specs/` defines.
ghost use Rattle.sh_answers.specs.Texts.{CleanIsPass};

/// A pass alone has the text `clean`, and a pass alone has status 0.
pub fn clean()
    ensures { CleanIsPass }
{}
