ghost use Rattle.acsl_postfix.specs.Exactness.{FormsAreRead};

/// What is read of leaves is the postfix form of the tree that writes them, and nothing is read where no tree does.
pub fn forms_are_read()
    ensures { FormsAreRead }
{}
