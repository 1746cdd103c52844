ghost use Rattle.run_check.specs.Sources.{SourcesRun};

/// Each core of a source may be run.
pub fn sources_run()
    ensures { SourcesRun }
{}
