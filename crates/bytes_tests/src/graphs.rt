// Two branches merged criss-cross.
use branch_graph::Graph;
use std::alloc::Global;
use std::process::Abort;
use std::test::Fail;

fn crosses_threads<T: Send + Sync>(_value: &T) {}

// Puts a commit into a graph, where its parents are there.
fn pushed(rt: &impl Abort, graph: &mut Graph, parents: &[u32]) -> u32 {
    let count = graph.count();
    assert!(rt; parents.iter().all(|parent| *parent < count));
    graph.push(parents).expect(rt, "room and memory")
}

// Commit 0, one commit on each of two branches, two merges of these, and one commit on each merge.
fn criss_cross(rt: &impl Abort, alloc: Global) -> Graph {
    let mut graph = Graph::new(alloc, 7);
    let history: [&[u32]; 7] = [&[], &[0], &[0], &[1, 2], &[2, 1], &[3], &[4]];
    for parents in history {
        let _number = pushed(rt, &mut graph, parents);
    }
    graph
}

#[test]
fn criss_cross_merges_have_two_bases(rt: HostRuntime) -> Result<(), Fail> {
    let graph = criss_cross(&rt, rt.alloc());
    crosses_threads(&graph);
    assert!(rt; graph.count() == 7);
    assert!(rt; graph.reaches(5, 2)? && graph.reaches(6, 0)? && graph.reaches(3, 3)?);
    assert!(rt; !graph.reaches(3, 4)? && !graph.reaches(5, 6)?);
    assert!(rt; graph.maximal_common(&[5], &[6])?.as_slice() == [1, 2].as_slice());
    assert!(rt; graph.maximal_common(&[3], &[5])?.as_slice() == [3].as_slice());
    assert!(rt; graph.maximal_common(&[1, 2], &[4])?.as_slice() == [1, 2].as_slice());
    Ok(())
}
