ghost use Rattle.std.specs.Prelude.{◌≡◌, ℕ, ◌+◌, ℤ, List, length};
ghost use Rattle.std.specs.List.{count_by};
ghost use Rattle.dd_model.specs.Cell.{AreCells};
ghost use Rattle.dd_model.specs.Symbol.{Symbol, IsChamber};
ghost use Rattle.dd_model.specs.declared.pair.Pair.TheVariants.{Tile, Vertex, Edge};
ghost use Rattle.dd_covers.specs.Torus.{IsTorus};
ghost use Rattle.dd_lattice.specs.Edges.{AreKindsOf, is_tree, is_crossing, is_left};
ghost use Rattle.dd_lattice.specs.NetOf.{IsNet};
ghost use Rattle.dd_lattice.specs.Nets.{IsConnectedNet};
ghost use Rattle.dd_lattice.specs.Shifts.{AreShifts};
ghost use Rattle.dd_lattice.specs.declared.net.Net.{Net};
ghost use Rattle.dd_lattice.specs.declared.kinds.EdgeKind.{EdgeKind};

/// A torus has one tree edge fewer than vertices, one crossing edge fewer than tiles, and exactly
/// two edges that are left.
pub fn two_edges_of_a_torus_are_left()
    ensures trees { (t : Symbol) (edges vertices : List ℕ) (kinds : List EdgeKind)
        → IsTorus t → AreCells t Edge edges → AreKindsOf t edges kinds
        → AreCells t Vertex vertices → count_by is_tree kinds + 1 ≡ length vertices }
    ensures crossings { (t : Symbol) (edges tiles : List ℕ) (kinds : List EdgeKind)
        → IsTorus t → AreCells t Edge edges → AreKindsOf t edges kinds
        → AreCells t Tile tiles → count_by is_crossing kinds + 1 ≡ length tiles }
    ensures left { (t : Symbol) (edges : List ℕ) (kinds : List EdgeKind)
        → IsTorus t → AreCells t Edge edges → AreKindsOf t edges kinds
        → count_by is_left kinds ≡ 2 }
{}

/// The rules for one coordinate of the shifts of a torus have one solution at most.
pub fn shifts_are_the_one_choice()
    ensures { (t : Symbol) (one : ℕ) (x y : ℕ → ℤ) → IsTorus t → AreShifts t one x
        → AreShifts t one y → (d : ℕ) → IsChamber t d → x d ≡ y d }
{}

/// The vertices and the edges of the net of a torus are determined, and the net is connected.
pub fn a_torus_has_one_net()
    ensures vertices { (t : Symbol) (net other : Net) → IsNet t net → IsNet t other
        → net.vertices ≡ other.vertices }
    ensures edges { (t : Symbol) (net other : Net) → IsTorus t → IsNet t net → IsNet t other
        → net.edges.items ≡ other.edges.items }
    ensures connected { (t : Symbol) (net : Net) → IsTorus t → IsNet t net → IsConnectedNet net }
{}
