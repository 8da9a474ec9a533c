ghost use Rattle.std.specs.Prelude.{◌≡◌, List};
ghost use Rattle.dd_lattice.specs.Nets.{IsConnectedNet};
ghost use Rattle.dd_lattice.specs.declared.net.Net.{Net};
ghost use Rattle.dd_draw.specs.Placement.{Point, IsPlacement};
ghost use Rattle.dd_draw.specs.Width.{Place, IsFirstWide};

/// A connected net has at most one placement.
pub fn a_connected_net_has_one_placement()
    ensures { (net : Net) (one other : List Point) → IsConnectedNet net
        → IsPlacement net one → IsPlacement net other → one ≡ other }
{}

/// The elimination of a net has at most one first place that is too wide.
pub fn a_net_has_one_first_wide_place()
    ensures { (net : Net) (one other : Place) → IsFirstWide net one → IsFirstWide net other
        → one ≡ other }
{}
