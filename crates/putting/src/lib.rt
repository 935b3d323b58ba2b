// Inner, for the reduction: puts pairs in place of a row that was taken. See specs/Putting.
#![tactic(auto)]

ghost use Rattle.std.specs.Prelude.{◌≡◌, ◌≢◌, ◌+◌, ◌<◌, ◌≤◌};
ghost use Rattle.matching.specs.Graph.{put};
ghost use Rattle.slots.specs.Working.{graph_in, Changes};
ghost use Rattle.putting.specs.Putting.{Unpaired, PairRaised, EndsThere, EndsPut};

use slots::graph::WorkingGraph;

// The pair x, y, which has no points, gets the points w.
pub fn put_pair(graph: &mut WorkingGraph, x: usize, y: usize, w: u64)
    requires { Unpaired graph.old x y }
    ensures { Changes graph.new.slots (put x y w (graph_in graph.old)) graph.old graph.new
        × (graph.new.slots ≤ graph.old.slots + 1) }
{
    if w > 0 {
        graph.append(x.min(y), x.max(y), w);
    }
}

// The pair u, v goes: the points that it had.
fn free_pair(graph: &mut WorkingGraph, u: usize, v: usize) -> u64
    requires { (u < 1024) × (v < 1024) }
    ensures { (result ≡ graph_in graph.old u v)
        × Changes graph.old.slots (put u v 0 (graph_in graph.old)) graph.old graph.new }
{
    let Some(i) = graph.find(u, v) else {
        return 0;
    };
    let points = graph.w1[i];
    graph.kill(i);
    points
}

// The pair u, v gets the larger of its points and k: whether its points were greater already.
fn raise_pair(graph: &mut WorkingGraph, u: usize, v: usize, k: u64) -> bool
    requires { (graph.old.slots < 4096) × (u ≢ v) × (u < 1024) × (v < 1024) }
    ensures { PairRaised graph.old graph.new u v k result }
{
    let before = free_pair(graph, u, v);
    put_pair(graph, u, v, before.max(k));
    k < before
}

// The ends u, v of a chain and its cell z, with the points that their three pairs get.
#[derive(Clone, Copy)]
pub struct Ends {
    pub u: usize,
    pub v: usize,
    pub z: usize,
    pub uv: u64,
    pub vz: u64,
    pub uz: u64,
}

// The three pairs get their points, but u, v no fewer than it had: whether it had more already.
pub fn put_ends(graph: &mut WorkingGraph, ends: Ends) -> bool
    requires { EndsThere graph.old ends }
    ensures { EndsPut graph.old graph.new ends result }
{
    let Ends {
        u,
        v,
        z,
        uv,
        vz,
        uz,
    } = ends;
    let more = raise_pair(graph, u, v, uv);
    put_pair(graph, v, z, vz);
    put_pair(graph, u, z, uz);
    more
}
