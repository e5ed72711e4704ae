// The patterns of a row.
ghost use Rattle.std.specs.Prelude.{◌≡◌, false, IfSome};
ghost use Rattle.std.proofs.Props.{props};

use pattern::Prepared;

// A Header's or a Line's, and a Content's where the row has one: "Content is matched as written" (document 01).
#[derive(Clone, Copy)]
pub struct RowPatterns<'a> {
    pub name: Prepared<'a>,
    pub content: Option<Prepared<'a>>,
    pub ghost written: { IfSome content (λ p. p.for_names ≡ false) } by { Prim.hlevel props },
}
