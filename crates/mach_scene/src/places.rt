//! Where things stand.
use mach_scene_base::{MOST_ROWS, Scene};
use mach_xml::{Point, Size};
use std::alloc::{AllocError, Global};

/// The left of tasks, and their width.
pub(crate) const TASK_LEFT: u32 = 80;

pub(crate) const TASK_WIDTH: u32 = 2_200;
/// How far rows of a task are apart.
pub(crate) const ROW: u32 = 170;
/// From the top of a task to its first row.
pub(crate) const HEAD: u32 = 240;
/// The left of ports, and their height.
pub(crate) const PORT_LEFT: u32 = 3_500;

pub(crate) const PORT_HEIGHT: u32 = 680;
/// How wide the picture is.
const WIDTH: u32 = 6_200;
/// How wide a letter is that isn't small.
pub(crate) const LETTER: u32 = 72;
/// The top of the first thing.
const TOP: u32 = 100;

/// Returns a place.
pub(crate) fn at(x: u32, y: u32) -> Point {
    Point { x, y }
}

/// Returns how wide so many letters are, each this wide.
pub(crate) fn wide(count: usize, letter: u32) -> u32 {
    u32::try_from(count)
        .unwrap_or(u32::MAX)
        .saturating_mul(letter)
}

/// Returns how many letters fit between two places, each this wide.
pub(crate) fn fit(from: u32, to: u32, letter: u32) -> usize {
    if letter == 0 {
        return 0;
    }
    (to.saturating_sub(from) / letter) as usize
}

/// Where each task and each port of a run stands.
#[derive(Drop)]
pub(crate) struct Plan {
    // The top of each task, and its height.
    tasks: Vec<(u32, u32)>,
    // The top of each port.
    ports: Vec<u32>,
    /// How wide the column of names is.
    pub(crate) names: u32,
    /// The size of the picture.
    pub(crate) size: Size,
}

impl Plan {
    /// Returns where the things of a scene stand, whose longest name has so many digits. Returns `AllocError` if out of
    /// memory.
    pub(crate) fn of(alloc: Global, scene: &Scene, digits: usize) -> Result<Plan, AllocError> {
        let mut plan = Plan {
            tasks: Vec::new(alloc),
            ports: Vec::new(alloc),
            names: wide(digits, LETTER).saturating_add(60).max(340),
            size: Size {
                width: WIDTH,
                height: 0,
            },
        };
        let below = plan.place_tasks(scene)?;
        let under = plan.place_ports(scene)?;
        plan.size.height = below.max(under).saturating_add(60);
        Ok(plan)
    }

    /// Gives each task its place, and returns the place below the last.
    fn place_tasks(&mut self, scene: &Scene) -> Result<u32, AllocError> {
        let mut y = TOP;
        for task in scene.tasks() {
            let rows = if task.is_crowded {
                MOST_ROWS.saturating_add(1)
            } else {
                task.rows.len().max(1)
            };
            let height = HEAD.saturating_add(wide(rows, ROW)).saturating_add(60);
            self.tasks.push((y, height))?;
            y = y.saturating_add(height).saturating_add(140);
        }
        Ok(y)
    }

    /// Gives each port its place beside the task that first received from it, and returns the place below the last.
    fn place_ports(&mut self, scene: &Scene) -> Result<u32, AllocError> {
        for _ in scene.ports() {
            self.ports.push(TOP)?;
        }
        let mut y = TOP;
        for task in 0..self.tasks.len() {
            let mut is_first = true;
            for (number, port) in scene.ports().iter().enumerate() {
                if port.beside == task {
                    if is_first {
                        y = y.max(self.task(task).0);
                        is_first = false;
                    }
                    if let Some(place) = self.ports.get_mut(number) {
                        *place = y;
                    }
                    y = y.saturating_add(PORT_HEIGHT).saturating_add(100);
                }
            }
        }
        Ok(y)
    }

    /// Returns the top of a task, and its height.
    pub(crate) fn task(&self, number: usize) -> (u32, u32) {
        self.tasks.get(number).copied().unwrap_or((TOP, 0))
    }

    /// Returns the top of a port.
    pub(crate) fn port(&self, number: usize) -> u32 {
        self.ports.get(number).copied().unwrap_or(TOP)
    }

    /// Returns the base line of a row of a task.
    pub(crate) fn row(&self, task: usize, row: usize) -> u32 {
        self.task(task)
            .0
            .saturating_add(HEAD)
            .saturating_add(wide(row, ROW))
            .saturating_add(120)
    }
}
