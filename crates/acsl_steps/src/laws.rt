ghost use Rattle.acsl_steps.specs.Laws.{FormsMakeMeanings};

/// Running the postfix form of a tree makes what the tree stands for, or ends with the first rule that it breaks.
pub fn forms_make_meanings()
    ensures { FormsMakeMeanings }
{}
