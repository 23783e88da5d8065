// Runs the ring and order routines on a few small relations and prints what they answer, a line each.

#![tactic(auto)]

use relation::Events;
use relation::grid::Grid;
use relation::row::Row;
use std::io;

// The events found, each behind a space, and a line feed.
fn show(rt: &impl Print, found: Events) -> io::Result<()> {
    for event in found.as_slice() {
        print!(rt; " {event}")?;
    }
    println!(rt)
}

fn show_ring(rt: &impl Print, g: Grid, e: Grid) -> io::Result<()> {
    print!(rt; "ring")?;
    show(rt, relation::ring::ring(g, e))
}

fn show_order(rt: &impl Print, g: Grid, s: Row) -> io::Result<()> {
    print!(rt; "order")?;
    show(rt, relation::order::order(g, s))
}

fn main(rt: HostRuntime) -> io::Result<()> {
    let none = relation::grid::empty();
    // a way of three steps, 5 to 3 to 60 to 0
    let way = relation::grid::with(
        relation::grid::with(relation::grid::with(none, 5, 3), 3, 60),
        60,
        0,
    );
    show_ring(&rt, way, way)?;
    show_order(&rt, way, relation::row::all())?;
    // the same with a step back from its end
    let round = relation::grid::with(way, 0, 5);
    show_ring(&rt, round, round)?;
    show_order(&rt, round, relation::row::all())?;
    // a shorter way round beside it
    let shorter = relation::grid::with(round, 60, 3);
    show_ring(&rt, shorter, shorter)?;
    // closed by a step of another relation
    show_ring(&rt, way, relation::grid::with(none, 60, 5))?;
    // an event that leads to itself
    show_ring(
        &rt,
        relation::grid::with(way, 63, 63),
        relation::grid::with(way, 63, 63),
    )
}
