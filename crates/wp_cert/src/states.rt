//! The states of a certificate.
ghost use Rattle.std.specs.Prelude.{◌≡◌, ◌++◌, ◌∷◌, [], OnOk, All};
ghost use Rattle.wp_task.specs.Set.{AreAtoms};
ghost use Rattle.wp_cert.specs.Certificate.{AreStates};

use std::alloc::AllocError;
use std::marker::Model;
use wp_task::Atoms;

/// A list of states, at most 100,000,000, each by its atoms: strictly increasing numbers below 65,536.
#[derive(Drop)]
pub struct Cert {
    items: Vec<Atoms>,
}

impl Model for Cert {
    ghost use Rattle.std.specs.Prelude.{List, ℕ};
    ghost use Rattle.wp_cert.specs.Certificate.{AreStates};

    ghost Value = { List (List ℕ) };

    ghost view = { λ c. c.items.items };

    ghost invariant = { λ c. AreStates c.items.items };
}

impl Cert {
    /// The certificate that lists these states.
    pub fn of_vec(items: Vec<Atoms>) -> Cert
        requires { AreStates items.items }
        ensures { result ≡ items.items }
    {
        Cert { items }
    }

    pub fn into_vec(self) -> Vec<Atoms>
        ensures value { result.items ≡ self }
        ensures fits { AreStates result.items }
    {
        let Cert { items } = self;
        items
    }

    pub fn as_slice(&self) -> &[Atoms]
        ensures value { result.now ≡ self.now }
        ensures fits { AreStates result.now }
    {
        self.items.as_slice()
    }
}

/// One state more.
pub(crate) fn push_state(states: &mut Vec<Atoms>, atoms: Atoms) -> Result<(), AllocError>
    requires before { All (AreAtoms 65536) states.old.items }
    requires one { AreAtoms 65536 atoms }
    ensures value { OnOk result (states.new.items ≡ states.old.items ++ atoms ∷ []) }
    ensures fits { OnOk result (All (AreAtoms 65536) states.new.items) }
{
    states.push(atoms)?;
    Ok(())
}
