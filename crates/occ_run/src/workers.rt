//! Clients that serve the lanes of their sessions themselves.

use crate::clients::Client;
use crate::loads::{Job, Load};
use occ_store::{Lane, Name};
use std::alloc::{AllocError, Allocator};
use std::sync::Wait;
use std::time::Clock;

/// A client, and the lane of its session until it runs.
#[derive(Drop)]
pub(crate) struct Worker<N: Name, L: Load, A: Allocator + Copy> {
    client: Client<N, L, A>,
    lane: Option<Lane<N, A>>,
}

impl<N: Name, L: Load, A: Allocator + Copy> Worker<N, L, A> {
    /// Runs the client, which serves the lane. It runs once.
    pub(crate) fn run<R: Wait + Clock>(&mut self, rt: &R, job: &Job<N, L, A>) {
        let lane = self.lane.take();
        self.client.run(rt, job, lane);
    }
}

/// A worker of each client and the lane at its place.
pub(crate) fn workers_of<N: Name, L: Load, A: Allocator + Copy>(
    alloc: A,
    clients: Vec<Client<N, L, A>, A>,
    lanes: Vec<Lane<N, A>, A>,
) -> Result<Vec<Worker<N, L, A>, A>, AllocError> {
    let mut workers = Vec::with_capacity(alloc, clients.len())?;
    for (client, lane) in clients.into_iter().zip(lanes) {
        workers.push(Worker {
            client,
            lane: Some(lane),
        })?;
    }
    Ok(workers)
}

/// The clients of workers that ran, in their order.
pub(crate) fn into_clients<N: Name, L: Load, A: Allocator + Copy>(
    alloc: A,
    workers: Vec<Worker<N, L, A>, A>,
) -> Result<Vec<Client<N, L, A>, A>, AllocError> {
    let mut clients = Vec::with_capacity(alloc, workers.len())?;
    for worker in workers {
        clients.push(worker.client)?;
    }
    Ok(clients)
}
