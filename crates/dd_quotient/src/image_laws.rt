ghost use Rattle.std.specs.Prelude.{◌≡◌, ℕ, List};
ghost use Rattle.dd_model.specs.Symbol.{Symbol, IsTable, IsSymbol};
ghost use Rattle.dd_model.specs.Connected.{Connected};
ghost use Rattle.dd_model.specs.Code.{count_from};
ghost use Rattle.dd_model.specs.Isomorphic.{Isomorphic};
ghost use Rattle.dd_model.specs.Minimal.{Minimal};
ghost use Rattle.dd_quotient.specs.MinimalImage.{IsMinimalImage, IsInOrder, IsFirstTooLarge, AreAllSmall};

/// A minimal image is minimal, and connected where the symbol is.
pub fn minimal_images_are_minimal()
    ensures minimal { (s m : Symbol) (f : List ℕ) → IsTable s → IsMinimalImage s m f → Minimal m }
    ensures connected { (s m : Symbol) (f : List ℕ) → IsTable s → Connected s → IsMinimalImage s m f
        → Connected m }
{}

/// A symbol has at most one minimal image, in other numbers.
pub fn minimal_images_are_isomorphic()
    ensures { (s m t : Symbol) (f g : List ℕ) → IsTable s → IsMinimalImage s m f
        → IsMinimalImage s t g → Isomorphic m t }
{}

/// Numbered in the order in which the chambers meet it, the minimal image is determined, and so is
/// the map.
pub fn minimal_images_in_order_are_unique()
    ensures image { (s m t : Symbol) (f g : List ℕ) → IsTable s → IsMinimalImage s m f
        → IsInOrder s f → IsMinimalImage s t g → IsInOrder s g → m ≡ t }
    ensures map { (s m t : Symbol) (f g : List ℕ) → IsTable s → IsMinimalImage s m f → IsInOrder s f
        → IsMinimalImage s t g → IsInOrder s g → f ≡ g }
{}

/// A minimal symbol is its own minimal image: no chamber moves.
pub fn minimal_symbols_are_their_images()
    ensures image { (s : Symbol) → IsSymbol s → Minimal s
        → IsMinimalImage s s (count_from 1 s.size) }
    ensures order { (s : Symbol) → IsInOrder s (count_from 1 s.size) }
{}

/// If one minimal image has a branching value over 30, all have one. The first such value does not
/// depend on the image.
pub fn first_large_values_are_unique()
    ensures excluded { (s m t : Symbol) (f g : List ℕ) (v : ℕ) → IsTable s → IsFirstTooLarge s m f v
        → IsMinimalImage s t g → AreAllSmall t → ⊥ }
    ensures unique { (s m t : Symbol) (f g : List ℕ) (v u : ℕ) → IsTable s → IsFirstTooLarge s m f v
        → IsFirstTooLarge s t g u → v ≡ u }
{}
