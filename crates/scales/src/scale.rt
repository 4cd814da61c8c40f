// What a grey scale is, and what a measured scale adds to it.
ghost use Rattle.std.specs.Prelude.{◌≡◌, ℕ, ◌≤◌, Bool, Decides};
ghost use Rattle.scales.specs.Scales.{Grading, Lattice, Bounded, Gaps};

// A kind of value with a relation "at or below", a join, a meet, a lowest and a highest value.
// No function refuses, and each answer is a function of the arguments alone.
pub trait Scale: Copy + PartialEq {
    ghost grading: { Grading Self };

    // The least value at or above both.
    fn join(self, other: Self) -> Self
        ensures { result ≡ grading.join self other };

    // The greatest value at or below both.
    fn meet(self, other: Self) -> Self
        ensures { result ≡ grading.meet self other };

    fn lowest() -> Self
        ensures { result ≡ grading.lowest };

    fn highest() -> Self
        ensures { result ≡ grading.highest };

    // Every value that a program can hold lies between the lowest and the highest.
    fn bounded(self)
        ensures { Bounded grading self };

    ghost lattice: { Lattice grading };

    // Two values that a program finds equal are the same value.
    ghost equality: { (a b : Self) (r : Bool) → (r ≡ Self.PartialEq.eq a b) → Decides r (a ≡ b) };
}

// Is the first value at or below the second, given their meet? It is exactly when the meet is the first.
fn is_the_meet<S: Scale>(a: S, b: S, meet: S) -> bool
    requires { meet ≡ S.grading.meet a b }
    ensures { Decides result (S.grading.below a b) }
{
    meet == a
}

// Is the first value at or below the second?
pub fn at_or_below<S: Scale>(a: S, b: S) -> bool
    ensures { Decides result (S.grading.below a b) }
{
    is_the_meet(a, b, a.meet(b))
}

// A grey scale that also says how far one value lies above another.
pub trait Measured: Scale {
    ghost excess: { Self → Self → ℕ };

    // How far this value lies above the one it is taken over: 0 exactly when it is at or below it.
    fn gap(self, over: Self) -> u16
        ensures value { result ≡ excess self over }
        ensures range { result ≤ 65535 }
        ensures only { result ≡ 0 → Self.Scale.grading.below self over }
        ensures none { Self.Scale.grading.below self over → result ≡ 0 };

    ghost gaps: { Gaps Self.Scale.grading excess };
}
