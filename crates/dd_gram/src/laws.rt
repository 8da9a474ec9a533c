ghost use Rattle.std.specs.Prelude.{◌≡◌, ℕ, List, pos, ◌<ℤ◌, ◌*ℤ◌};
ghost use Rattle.dd_model.specs.Symbol.{Symbol};
ghost use Rattle.dd_model.specs.Isomorphic.{IsIsomorphism};
ghost use Rattle.dd_covers.specs.Torus.{IsTorus};
ghost use Rattle.dd_lattice.specs.NetOf.{IsNet};
ghost use Rattle.dd_lattice.specs.declared.net.Net.{Net};
ghost use Rattle.dd_gram.specs.Action.{IsAction};
ghost use Rattle.dd_gram.specs.Form.{IsGram, carried};
ghost use Rattle.dd_gram.specs.Frames.{IsOwnFrame};
ghost use Rattle.dd_model.specs.declared.frame.Frame.{Frame};
ghost use Rattle.dd_gram.specs.declared.forms.Gram.{Gram};
ghost use Rattle.dd_gram.specs.declared.forms.Matrix.{Matrix};

/// A symmetry of a torus acts by exactly one matrix.
pub fn each_symmetry_has_one_matrix()
    ensures exists { (t : Symbol) (net : Net) (f : List ℕ) → IsTorus t → IsNet t net
        → IsIsomorphism t t f → (m : Matrix) × IsAction t f m }
    ensures unique { (t : Symbol) (f : List ℕ) (m n : Matrix) → IsAction t f m → IsAction t f n
        → m ≡ n }
{}

/// Each symmetry of a torus keeps its form.
pub fn symmetries_keep_the_form()
    ensures { (t : Symbol) (f : List ℕ) (m : Matrix) (g : Gram) → IsGram t g → IsAction t f m
        → carried m g ≡ g }
{}

/// No torus has two forms.
pub fn a_form_is_that_of_one_list()
    ensures { (t : Symbol) (g h : Gram) → IsTorus t → IsGram t g → IsGram t h → g ≡ h }
{}

/// The form of a torus is positive definite.
pub fn a_form_is_positive()
    ensures positive { (t : Symbol) (g : Gram) → IsTorus t → IsGram t g → pos 0 <ℤ g.a }
    ensures definite { (t : Symbol) (g : Gram) → IsTorus t → IsGram t g
        → (g.b *ℤ g.b) <ℤ (g.a *ℤ g.c) }
{}

/// A form gives one frame.
pub fn a_form_gives_one_frame()
    ensures { (g : Gram) (f h : Frame) → pos 0 <ℤ g.a → IsOwnFrame g f → IsOwnFrame g h → f ≡ h }
{}
