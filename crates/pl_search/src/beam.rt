//! One search by layers: the next layer has the plans that one more repair makes of the plans of this layer with the lowest prices.
ghost use Rattle.std.specs.Prelude.{◌≡◌, false, OnOk};

use crate::branching::GivingUp;
use crate::expanding::Branch;
use crate::node::Node;
use crate::price::price_of;
use crate::tries::Tries;
use pl_board::Board;
use std::alloc::{AllocError, Global};

/// What is looked for.
#[derive(Clone, Copy)]
pub(crate) struct Aim {
    /// A plan is good enough if at most so many conflicts stand, open goals not counted.
    pub(crate) enough: u32,
    /// The most repairs on the way.
    pub(crate) repairs: usize,
    pub(crate) giving_up: GivingUp,
    /// How many plans one search by layers may look at.
    pub(crate) worlds: u32,
}

/// How wide a search is.
#[derive(Clone, Copy)]
pub(crate) struct Shape {
    /// From how many plans of a layer it goes on.
    pub(crate) width: usize,
    /// Of how many conflicts of each plan the repairs are tried.
    pub(crate) conflicts: u32,
    /// Whether conflicts cost more where they last longer.
    pub(crate) lengths: bool,
}

/// What a search came to.
#[derive(Drop)]
pub(crate) enum Ended {
    /// A plan with few enough conflicts.
    Found(Node),
    /// No such plan: the best of those that were looked at, if there was any.
    Best(Option<Node>),
}

/// How many layers in a row may bring nothing better before a search is given up.
const PATIENCE: u32 = 12;

// A layer of plans, in the order of their prices, or one among them that is good enough.
#[derive(Drop)]
enum Layer {
    Found(Node),
    Going(Vec<Node>),
}

fn is_enough(node: &Node, aim: &Aim) -> bool {
    node.look.hard <= aim.enough && node.path.len() <= aim.repairs
}

fn sorted_copies(alloc: Global, from: &[Node], lengths: bool) -> Result<Vec<Node>, AllocError> {
    let mut nodes = Vec::new(alloc);
    for node in from {
        nodes.push(node.copy(alloc)?)?;
    }
    nodes.sort_by_key(|node| node.price(lengths))?;
    Ok(nodes)
}

// The layer that a search starts with.
fn first_layer(
    alloc: Global,
    from: &[Node],
    aim: &Aim,
    shape: &Shape,
) -> Result<Layer, AllocError> {
    let nodes = sorted_copies(alloc, from, shape.lengths)?;
    let mut going = Vec::new(alloc);
    for node in nodes.as_slice() {
        if is_enough(node, aim) {
            return Ok(Layer::Found(node.copy(alloc)?));
        }
        if going.len() < shape.width {
            going.push(node.copy(alloc)?)?;
        }
    }
    Ok(Layer::Going(going))
}

// The layer of the plans that the steps lead to.
fn layer_of_steps(
    tries: &Tries,
    nodes: &[Node],
    aim: &Aim,
    shape: &Shape,
) -> Result<Layer, AllocError> {
    let mut going = Vec::new(tries.alloc);
    for step in tries.found.as_slice() {
        if let Some(node) = nodes.get(step.from) {
            if step.look.hard <= aim.enough {
                return Ok(Layer::Found(node.behind(tries.alloc, step)?));
            }
            if going.len() < shape.width {
                going.push(node.behind(tries.alloc, step)?)?;
            }
        }
    }
    Ok(Layer::Going(going))
}

fn sort_steps(tries: &mut Tries, lengths: bool) -> Result<(), AllocError> {
    tries
        .found
        .sort_by_key(|step| price_of(&step.look, 0, lengths))?;
    Ok(())
}

// Tries the repairs of one plan of a layer, if more plans may be looked at.
fn expand_one(
    tries: &mut Tries,
    board: &mut Board,
    node: &Node,
    from: usize,
    aim: &Aim,
    shape: &Shape,
) -> Result<(), AllocError>
    requires { board.old.spoiled ≡ false }
    ensures { OnOk result (board.new ≡ board.old) }
{
    if node.path.len() >= aim.repairs {
        return Ok(());
    }
    let branch = Branch {
        from,
        look: node.look,
        conflicts: shape.conflicts,
        giving_up: aim.giving_up,
    };
    tries.expand(board, node.path.as_slice(), &branch)
}

// Tries the repairs of the plans of a layer while more than so many plans may still be looked at.
fn expand_all(
    tries: &mut Tries,
    board: &mut Board,
    nodes: &[Node],
    aim: &Aim,
    shape: &Shape,
    stop: u32,
) -> Result<(), AllocError>
    requires { board.old.spoiled ≡ false }
    ensures { OnOk result (board.new ≡ board.old) }
{
    let mut from = 0;
    for node in nodes {
        if tries.left <= stop {
            return Ok(());
        }
        expand_one(tries, board, node, from, aim, shape)?;
        from = from.saturating_add(1);
    }
    Ok(())
}

fn next_layer(
    tries: &mut Tries,
    board: &mut Board,
    nodes: &[Node],
    aim: &Aim,
    shape: &Shape,
    stop: u32,
) -> Result<Layer, AllocError>
    requires { board.old.spoiled ≡ false }
    ensures { OnOk result (board.new ≡ board.old) }
{
    tries.found = Vec::new(tries.alloc);
    expand_all(tries, board, nodes, aim, shape, stop)?;
    sort_steps(tries, shape.lengths)?;
    layer_of_steps(tries, nodes, aim, shape)
}

// The best so far, and how many layers in a row were no better.
#[derive(Drop)]
struct Progress {
    best: Option<Node>,
    price: u64,
    idle: u32,
}

impl Progress {
    fn none() -> Progress {
        Progress {
            best: None,
            price: u64::MAX,
            idle: 0,
        }
    }

    fn note(&mut self, alloc: Global, nodes: &[Node], lengths: bool) -> Result<(), AllocError> {
        self.idle = self.idle.saturating_add(1);
        if let Some(first) = nodes.first() {
            let price = first.price(lengths);
            if price < self.price {
                self.best = Some(first.copy(alloc)?);
                self.price = price;
                self.idle = 0;
            }
        }
        Ok(())
    }

    fn into_best(self) -> Option<Node> {
        let Progress {
            best,
            price: _,
            idle: _,
        } = self;
        best
    }
}

fn see_all(tries: &mut Tries, from: &[Node]) -> Result<(), AllocError> {
    tries.forget();
    for node in from {
        tries.see(node.look.mark)?;
    }
    Ok(())
}

// Goes on from these plans, layer by layer, while more than `stop` plans may still be looked at.
fn go_on_by_layers(
    tries: &mut Tries,
    board: &mut Board,
    first: Vec<Node>,
    aim: &Aim,
    shape: &Shape,
    stop: u32,
) -> Result<Ended, AllocError>
    requires { board.old.spoiled ≡ false }
    ensures { OnOk result (board.new ≡ board.old) }
{
    let mut nodes = first;
    let mut progress = Progress::none();
    for _layer in 0..aim.repairs.saturating_add(1) {
        progress.note(tries.alloc, nodes.as_slice(), shape.lengths)?;
        if nodes.is_empty() || tries.left <= stop || progress.idle > PATIENCE {
            break;
        }
        match next_layer(tries, board, nodes.as_slice(), aim, shape, stop)? {
            Layer::Found(node) => return Ok(Ended::Found(node)),
            Layer::Going(next) => nodes = next,
        }
    }
    Ok(Ended::Best(progress.into_best()))
}

/// Searches layer by layer until a plan is good enough, or until the search is given up.
pub(crate) fn search_by_layers(
    tries: &mut Tries,
    board: &mut Board,
    from: &[Node],
    aim: &Aim,
    shape: &Shape,
) -> Result<Ended, AllocError>
    requires { board.old.spoiled ≡ false }
    ensures { OnOk result (board.new ≡ board.old) }
{
    let stop = tries.left.saturating_sub(aim.worlds);
    see_all(tries, from)?;
    match first_layer(tries.alloc, from, aim, shape)? {
        Layer::Found(node) => Ok(Ended::Found(node)),
        Layer::Going(nodes) => go_on_by_layers(tries, board, nodes, aim, shape, stop),
    }
}
