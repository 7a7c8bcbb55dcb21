//! Graphs that nobody needs any more.

use bq_query_target_graph::TargetGraph;
use std::thread;
use std::thread::{JoinHandle, Threads};

/// How many targets a graph has to have for its drop to be worth a thread's start.
const DROPPED_ASIDE: usize = 1_024;

/// Drops a graph, aside if it is large: in a thread of its own, for which nobody has to wait. So an answer need not wait
/// until each of its targets is dropped, and nor need a process that ends with it, which gives all memory back at once.
/// Returns the thread, so that who drops graph after graph can wait for it. Where there is no thread for it, the graph is
/// dropped here.
pub fn drop_aside<R: Threads>(rt: &R, graph: TargetGraph) -> Option<JoinHandle<()>> {
    if graph.targets().len() < DROPPED_ASIDE {
        drop(graph); // PROOF: one call lets the graph go
        return None;
    }
    thread::spawn(rt, move || drop(graph)).ok()
}
