ghost use Rattle.std.specs.Prelude.{◌≡◌};
ghost use Rattle.hc_bits.specs.Catalogue.{operation};
ghost use Rattle.hc_ops.specs.Arguments.{AreLawful};

use hc_bits::{Bits, OpKind};

/// What computes an operation.
pub type Run = Box<dyn Fn(&[Bits]) -> Bits>;

/// An operation of the catalogue: its kind, and a boxed function that may be called with all lawful
/// arguments of the kind and answers the catalogue's value for them.
#[derive(Drop)]
pub struct CombOp {
    pub kind: OpKind,
    run: Run,
    pub ghost runs: { (args : _) → AreLawful kind args.now → Run.pre run args },
    pub ghost answers: { (args : _) (r : _) → AreLawful kind args.now → Run.post run args r → r ≡ operation kind args.now },
}

impl CombOp {
    /// The operation of this kind that `run` computes.
    pub fn new(kind: OpKind, run: Box<dyn Fn(&[Bits]) -> Bits>) -> CombOp
        requires runs { (args : _) → AreLawful kind args.now → Run.pre run args }
        requires answers { (args : _) (r : _) → AreLawful kind args.now → Run.post run args r → r ≡ operation kind args.now }
        ensures { result.kind ≡ kind }
    {
        CombOp { kind, run }
    }

    /// The catalogue's value of the operation. There are as many arguments as it takes, all of one
    /// width.
    pub fn call(&self, args: &[Bits]) -> Bits
        requires { AreLawful self.now.kind args.now }
        ensures { result ≡ operation self.now.kind args.now }
    {
        (self.run)(args)
    }
}
