// The resolver's tables: where a pose, a track and a rung's candidates lie, and what is written there.
ghost use Rattle.std.specs.Prelude.{◌≡◌, ℕ, ◌+◌, ◌*◌, ◌^◌, ◌<◌, ◌≤◌, length};

use enumeration::{Candidate, Extent, Place, Ranked, Station};
use ladder::poses::{Limits, PoseNumber};
use ladder::rules::Cost;

// What a resolver holds: the tables, the ladder's size, and how many tracks are taken, in all and at each pose of the last rung. Rung r has the
// stations 16·r to 16·r + 15, 16 + ration ranked places, and 16 candidate places for each station. The setup and the lent tables are held field
// by field: two structs in their place would only lengthen each fact on what a step keeps and what it writes.
#[derive(Drop)]
pub struct Core<'t, C> {
    pub stations: &'t mut [Station],
    pub ranked: &'t mut [Ranked<C>],
    pub candidates: &'t mut [Candidate<C>],
    // the rung that is being added has its extent already, and `rungs` does not count it yet, so no vector of `rungs` extents holds them
    pub extents: [Extent; 128],
    pub limits: Limits,
    pub rung_limit: usize,
    pub ration: usize,
    pub rungs: usize,
    // a flag, and no type for each state: any call may come in either, and is then refused by its number
    pub closed: bool,
    pub taken: usize,
    // of a fixed length too; the last rung's poses are the first of it
    pub counts: [u16; 16],
    pub recent: Option<PoseNumber>,
    ghost shoulder: { limits.shoulder ≤ 65535 },
    ghost elbow: { limits.elbow ≤ 65535 },
    ghost limited: { rung_limit ≤ 128 },
    ghost rationed: { ration ≤ 4096 },
    ghost held: { rungs ≤ rung_limit },
    ghost drawn: { taken ≤ ration },
    ghost stations_fit: { 16 * rung_limit ≤ length stations.now },
    ghost ranked_fit: { (16 + ration) * rung_limit ≤ length ranked.now },
    ghost candidates_fit: { 256 * rung_limit ≤ length candidates.now },
    ghost wide: { length counts ≡ 16 },
}

// Place i of block r, in a table that is cut into blocks of one width; a place past the block's end is brought to its last.
fn place_in(width: usize, r: usize, i: usize) -> usize
    requires some { 0 < width }
    requires fits { width * r + width < 2 ^ 64 }
    ensures low { width * r ≤ result }
    ensures high { result < width * r + width }
    ensures is { i < width → result ≡ width * r + i }
{
    width * r + i.min(width - 1)
}

// The numbers that the tables hold are brought into range before they are used as places: what a table holds is known between calls alone, by the
// resolver's invariant, and these run within a call. So no access leaves its table whatever they are. A rung and a pose number stay two parameters:
// about a quarter of the calls join a rung with another pose number than they were given, and a contract would have to name both fields each time. That a rung
// is below the limit, or has one before it, is a fact about an argument, and what a step keeps is one about two moments: they are clauses, since a type that
// held the tables beside the argument would be no plainer. A pose number may be any byte, as the type is public, so what is read of it asks for less than 16.
impl<'t, C: Cost> Core<'t, C> {
    ghost use Rattle.resolver.specs.Kept.{Same};
    ghost use Rattle.resolver.specs.Effects.{PutsStation, PutsTrack};
    ghost use Rattle.resolver.specs.Tables.{station_at, track_at};

    // Where pose v of rung r stands.
    pub(crate) fn station_place(&self, r: usize, v: PoseNumber) -> usize
        requires { r < self.now.rung_limit }
        ensures low { 16 * r ≤ result }
        ensures high { result < 16 * r + 16 }
        ensures is { v.0 < 16 → result ≡ 16 * r + v.0 }
    {
        place_in(16, r, v.0 as usize)
    }

    // Where a place of rung r's ranked block lies.
    pub(crate) fn ranked_place(&self, r: usize, at: Place) -> usize
        requires { r < self.now.rung_limit }
        ensures within { result < length self.now.ranked.now }
        ensures is { at.0 < 16 + self.now.ration → result ≡ (16 + self.now.ration) * r + at.0 }
    {
        place_in(16 + self.ration, r, at.0 as usize)
    }

    // Pose v of rung r.
    pub(crate) fn station(&self, r: usize, v: PoseNumber) -> Station
        requires { r < self.now.rung_limit }
        ensures { v.0 < 16 → result ≡ station_at self.now r v.0 }
    {
        self.stations[self.station_place(r, v)]
    }

    // The track at a place of rung r's ranked block.
    pub(crate) fn track(&self, r: usize, at: Place) -> Ranked<C>
        requires { r < self.now.rung_limit }
        ensures { at.0 < 16 + self.now.ration → result ≡ track_at self.now C.Cost.rules r at.0 }
    {
        self.ranked[self.ranked_place(r, at)]
    }

    // Writes pose v of rung r.
    pub(crate) fn put_station(&mut self, r: usize, v: PoseNumber, s: Station)
        requires { r < self.old.rung_limit }
        ensures same { Same self.old self.new }
        ensures effect { PutsStation C.Cost.rules self.old self.new r v.0 s }
    {
        self.stations[self.station_place(r, v)] = s;
    }

    // Writes the track at a place of rung r's ranked block. One call for both tables would take the table, its width and
    // its definition beside, and be no plainer; so it is with reading.
    pub(crate) fn put_track(&mut self, r: usize, at: Place, e: Ranked<C>)
        requires { r < self.old.rung_limit }
        ensures same { Same self.old self.new }
        ensures effect { PutsTrack C.Cost.rules self.old self.new r at.0 e }
    {
        self.ranked[self.ranked_place(r, at)] = e;
    }
}
