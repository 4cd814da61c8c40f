// What a criterion is.
ghost use Rattle.std.specs.Prelude.{◌≡◌};
ghost use Rattle.criteria.specs.Criteria.{Judgement, Itself};

// A criterion has its own kind of value and answers two questions. Criterion and values fix both answers,
// neither question refuses, and asking alters nothing.
pub trait Criterion {
    type Value: Copy;

    ghost judgement: { Self → Judgement Self.Value };

    // Is the value admitted?
    fn admitted(&self, value: Self::Value) -> bool
        ensures { result ≡ (judgement self.now).admits value };

    // Is the value near the centre?
    fn near(&self, centre: Self::Value, value: Self::Value) -> bool
        ensures { result ≡ (judgement self.now).near centre value };

    // Every admitted value is near itself.
    ghost itself: { (c : Self) → Itself (judgement c) };
}
