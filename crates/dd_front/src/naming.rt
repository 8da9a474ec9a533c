use std::marker::Brand;

/// Which round a desk is of: what is asked for, and its jobs. A desk, its board and its tickets
/// carry a name, so that those of two rounds cannot be mixed.
pub trait Naming {
    ghost use Rattle.std.specs.Prelude.{List};
    ghost use Rattle.dd_model.specs.declared.requests.Request.{Request};
    ghost use Rattle.dd_model.specs.declared.jobs.Job.{Job};

    ghost request: { Request };

    ghost jobs: { List Job };
}

impl Naming for Brand {
    ghost use Rattle.std.specs.Prelude.{[]};
    ghost use Rattle.dd_front.specs.Names.{no_request};

    ghost request = { no_request };

    ghost jobs = { [] };
}
