//! Which forms to add: a cycle of differences whose sum is below 0, found as by Bellman and Ford, who lower values along edges. Only
//! edges from values that were lowered are followed. It is advice alone: who asks adds the forms up.
#![tactic(auto)]

use crate::edges::{Edge, Edges};
use fam_outer::NoMemory;
use std::alloc::Global;

/// Values of signed features, which are lowered to what edges allow; for each the edge that lowered it last; and those that were
/// lowered, in order.
#[derive(Drop)]
pub(crate) struct Lowered {
    values: Vec<i64>,
    entries: Vec<usize>,
    nodes: Vec<usize>,
}

impl Lowered {
    /// Values from which none was lowered.
    pub(crate) fn from_values(alloc: Global, values: &[i64]) -> Result<Lowered, NoMemory> {
        Ok(Lowered {
            values: Vec::from_slice(alloc, values)?,
            entries: vec![in alloc; usize::MAX; values.len()]?,
            nodes: Vec::new(alloc),
        })
    }

    /// The values.
    pub(crate) fn values(&self) -> &[i64] {
        self.values.as_slice()
    }

    /// The value of a node.
    fn value_at(&self, node: usize) -> i64 {
        match self.values.get(node) {
            None => 0,
            Some(value) => *value,
        }
    }

    /// The node that was lowered at a place of their order.
    fn node_at(&self, place: usize) -> Option<usize> {
        match self.nodes.get(place) {
            None => None,
            Some(node) => Some(*node),
        }
    }

    /// The edge by which a node was lowered.
    fn entry<'a>(&self, edges: &'a Edges, node: usize) -> Option<&'a Edge> {
        match self.entries.get(node) {
            None => None,
            Some(number) => edges.get(*number),
        }
    }

    /// Lowers a node by an edge.
    fn lower(&mut self, node: usize, value: i64, number: usize) -> Result<(), NoMemory> {
        if node < self.values.len() && node < self.entries.len() {
            self.values[node] = value;
            self.entries[node] = number;
            self.nodes.push(node)?;
        }
        Ok(())
    }

    /// Whether the edges by which nodes were lowered lead back from one to another.
    fn leads_back(&self, edges: &Edges, start: usize, end: usize) -> bool {
        let mut node = start;
        for _step in 0..self.entries.len() {
            if node == end {
                return true;
            }
            match self.entry(edges, node) {
                None => return false,
                Some(edge) => node = edge.from,
            }
        }
        false
    }

    /// Lowers the node that an edge leads to, if the edge is there and asks for it. It answers the node where that closes a cycle.
    fn follow(
        &mut self,
        edges: &Edges,
        number: usize,
        known: &[Option<bool>],
    ) -> Result<Option<usize>, NoMemory> {
        let Some(edge) = edges.get(number) else {
            return Ok(None);
        };
        let most = self.value_at(edge.from).saturating_add(edge.most);
        if most >= self.value_at(edge.to) || !edge.is_there(known) {
            return Ok(None);
        }
        self.lower(edge.to, most, number)?;
        if self.leads_back(edges, edge.from, edge.to) {
            Ok(Some(edge.to))
        } else {
            Ok(None)
        }
    }

    /// Follows the edges of a test. It answers a node on a cycle, if one is closed.
    fn follow_test(
        &mut self,
        edges: &Edges,
        test: usize,
        known: &[Option<bool>],
    ) -> Result<Option<usize>, NoMemory> {
        for number in edges.first_of(test)..edges.first_of(test.saturating_add(1)) {
            let found = self.follow(edges, number, known)?;
            if found.is_some() {
                return Ok(found);
            }
        }
        Ok(None)
    }

    /// The same of tests.
    fn follow_tests(
        &mut self,
        edges: &Edges,
        tests: &[usize],
        known: &[Option<bool>],
    ) -> Result<Option<usize>, NoMemory> {
        for test in tests {
            let found = self.follow_test(edges, *test, known)?;
            if found.is_some() {
                return Ok(found);
            }
        }
        Ok(None)
    }

    /// The same of the edges from a node.
    fn follow_node(
        &mut self,
        edges: &Edges,
        node: usize,
        known: &[Option<bool>],
    ) -> Result<Option<usize>, NoMemory> {
        let mut number = edges.last_from(node);
        for _edge in 0..edges.len() {
            let found = self.follow(edges, number, known)?;
            if found.is_some() {
                return Ok(found);
            }
            match edges.get(number) {
                None => return Ok(None),
                Some(edge) => number = edge.next,
            }
        }
        Ok(None)
    }

    /// The same of the edges from the nodes that were lowered, and from those that are meanwhile.
    fn follow_nodes(
        &mut self,
        edges: &Edges,
        known: &[Option<bool>],
    ) -> Result<Option<usize>, NoMemory> {
        for place in 0..edges.len().saturating_mul(self.values.len()) {
            let Some(node) = self.node_at(place) else {
                return Ok(None);
            };
            let found = self.follow_node(edges, node, known)?;
            if found.is_some() {
                return Ok(found);
            }
        }
        Ok(None)
    }

    /// The places of the forms on the cycle through a node, that of a form of one feature twice.
    fn places_back(
        &self,
        alloc: Global,
        edges: &Edges,
        start: usize,
    ) -> Result<Vec<usize>, NoMemory> {
        let mut places = Vec::new(alloc);
        let mut node = start;
        for _step in 0..self.entries.len() {
            if let Some(edge) = self.entry(edges, node) {
                places.push(edge.place)?;
                if edge.from ^ 1 == edge.to {
                    places.push(edge.place)?;
                }
                node = edge.from;
                if node == start {
                    return Ok(places);
                }
            }
        }
        Ok(places)
    }

    /// The places of forms, some twice, whose sum may be a number below 0; none where there is no such cycle. The values are allowed
    /// by all edges but those of some tests, and then by these too.
    pub(crate) fn cycle(
        &mut self,
        alloc: Global,
        edges: &Edges,
        tests: &[usize],
        known: &[Option<bool>],
    ) -> Result<Vec<usize>, NoMemory> {
        let mut found = self.follow_tests(edges, tests, known)?;
        if found.is_none() {
            found = self.follow_nodes(edges, known)?;
        }
        match found {
            None => Ok(Vec::new(alloc)),
            Some(start) => self.places_back(alloc, edges, start),
        }
    }
}
