// What is called, as it is printed.
use crate::calls::{Operation, RecordsRun};
use lists::Trip;
use shiftlists::{Axis, Edge};
use std::fmt;

fn axis_name(axis: Axis) -> &'static str {
    match axis {
        Axis::MeshRow => "mesh row",
        Axis::MeshColumn => "mesh column",
        Axis::GroupRow => "group row",
        Axis::GroupColumn => "group column",
    }
}

fn edge_name(edge: Edge) -> &'static str {
    match edge {
        Edge::ZeroFill => "zero fill",
        Edge::Circular => "circular",
    }
}

fn trip_name(trip: Trip) -> &'static str {
    match trip {
        Trip::Concentrate => "concentrate",
        Trip::Distribute => "distribute",
    }
}

impl fmt::Display for Operation {
    fn fmt<W: fmt::Write>(&self, f: &mut fmt::Formatter<W>) -> fmt::Result {
        match *self {
            Operation::Broadcast(cell) => write!(f, "broadcast\t{cell}"),
            Operation::DataSum => f.write_str("data sum"),
            Operation::PrefixSum => f.write_str("prefix sum"),
            Operation::Shift(axis, edge, k) => {
                let axis = axis_name(axis);
                let edge = edge_name(edge);
                write!(f, "shift {axis}, {edge}\t{k}")
            }
        }
    }
}

impl fmt::Display for RecordsRun {
    fn fmt<W: fmt::Write>(&self, f: &mut fmt::Formatter<W>) -> fmt::Result {
        match *self {
            RecordsRun::Whole(trip, _) => f.write_str(trip_name(trip)),
            RecordsRun::Cut(trip, cut) => {
                let trip = trip_name(trip);
                write!(f, "{trip} cut\t{cut}")
            }
        }
    }
}
