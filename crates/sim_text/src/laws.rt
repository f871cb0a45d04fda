//! Laws of the lines, each the contract of a function that does nothing.

ghost use Rattle.std.specs.Prelude.{◌≡◌, length, map};
ghost use Rattle.std.specs.List.{filter};
ghost use Rattle.world_rules.specs.Report.{all_calls, summary, wire, wire_line};
ghost use Rattle.world_rules.specs.Setting.{Setting};
ghost use Rattle.world_rules.specs.World.{World, bytes_of};
ghost use Rattle.sim_text.specs.Bag.{joined, packets_line};
ghost use Rattle.sim_text.specs.Counts.{tally_line, tally_of};

use draws::Draw;

/// The line on all packets of a world, and the bytes of these packets.
pub fn lines_of_packets<D: Draw, V>()
    ensures line { (setting : Setting D V) (world : World D V) → wire_line setting world ≡ packets_line (map (bytes_of setting) world.bag) }
    ensures bytes { (setting : Setting D V) (world : World D V) → wire setting world ≡ joined (map (bytes_of setting) world.bag) }
{}

/// The summary of a world, by what it counts.
pub fn summaries<D: Draw, V>()
    ensures { (setting : Setting D V) (world : World D V) → summary setting world
        ≡ tally_line (tally_of (all_calls world)) (length (filter (λ entered. entered.entry.ran) world.entries)) (length world.bag) (length (wire setting world)) }
{}
