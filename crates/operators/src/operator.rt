// The two operators: a dilation joins the values of a neighbourhood, an erosion meets them.
ghost use Rattle.std.specs.Prelude.{◌≡◌, Bool, true, false};
ghost use Rattle.operators.specs.Steps.{towards};

use scales::Scale;

pub(crate) trait Operator: Copy {
    // does it join? else it meets
    ghost up: { Bool };

    // The join of two values, or their meet.
    fn pick<S: Scale>(self, a: S, b: S) -> S
        ensures { result ≡ (towards up S.grading).join a b };
}

#[derive(Clone, Copy)]
pub(crate) struct Dilation;

#[derive(Clone, Copy)]
pub(crate) struct Erosion;

impl Operator for Dilation {
    ghost up = { true };

    fn pick<S: Scale>(self, a: S, b: S) -> S {
        a.join(b)
    }
}

impl Operator for Erosion {
    ghost up = { false };

    fn pick<S: Scale>(self, a: S, b: S) -> S {
        a.meet(b)
    }
}
