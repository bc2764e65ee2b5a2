//! The layers that can be tried, each by its name, and what is asked of one.

ghost use Rattle.std.specs.Prelude.{◌≡◌, ◌≢◌, IfSome, IfNone, OnSome};
ghost use Rattle.balm_bench.specs.declared.layer.Layer.{Layer};
ghost use Rattle.balm_bench.specs.LayerNames.{name_of};

use std::fmt;

/// A layer whose cost is shown.
#[derive(Clone, Copy)]
pub enum Layer {
    /// The logical lines and words of a text.
    Lines,

    /// A table of names and their values.
    Names,

    /// The node table of the diagrams.
    Nodes,

    /// The diagram of a conjunction whose levels are interleaved.
    Interleaved,

    /// The diagram of the same conjunction with its levels in two blocks.
    Blocked,

    /// The text of a network with one table of many rows.
    Rows,

    /// The text of a network with many names that share one domain.
    Domains,

    /// The text of a network whose names collide in each map.
    Collisions,

    /// The names of a network, each with another count of values.
    Counts,

    /// The text of a network with many named values, and rows that name them.
    Valued,

    /// The relation of a chain of many latches.
    Chain,

    /// The relation of one table of many rows.
    Drawn,

    /// The subset construction of many latches in a row.
    Subsets,

    /// The subset construction of a relation whose states have many targets each.
    Targets,
}

impl Layer {
    const ALL: [Layer; 14] = [
        Layer::Lines,
        Layer::Names,
        Layer::Nodes,
        Layer::Interleaved,
        Layer::Blocked,
        Layer::Rows,
        Layer::Domains,
        Layer::Collisions,
        Layer::Counts,
        Layer::Valued,
        Layer::Chain,
        Layer::Drawn,
        Layer::Subsets,
        Layer::Targets,
    ];

    /// The word that names it.
    pub fn name(self) -> &'static str
        ensures { result.now ≡ name_of self }
    {
        match self {
            Layer::Lines => "lines",
            Layer::Names => "names",
            Layer::Nodes => "nodes",
            Layer::Interleaved => "interleaved",
            Layer::Blocked => "blocked",
            Layer::Rows => "rows",
            Layer::Domains => "domains",
            Layer::Collisions => "collisions",
            Layer::Counts => "counts",
            Layer::Valued => "valued",
            Layer::Chain => "chain",
            Layer::Drawn => "drawn",
            Layer::Subsets => "subsets",
            Layer::Targets => "targets",
        }
    }

    /// The layer that a word names.
    pub fn named(word: &str) -> Option<Layer>
        ensures found { IfSome result (λ layer. name_of layer ≡ word.now) }
        ensures unknown { IfNone result ((layer : Layer) → name_of layer ≢ word.now) }
    {
        for layer in Layer::ALL {
            if layer.name() == word {
                return Some(layer);
            }
        }
        None
    }
}

impl fmt::Display for Layer {
    fn fmt<W: fmt::Write>(&self, f: &mut fmt::Formatter<W>) -> fmt::Result {
        write!(f, "{}", self.name())
    }
}

/// A layer, and how large its work is to be.
#[derive(Clone, Copy)]
pub struct Job {
    pub layer: Layer,
    pub size: u32,
}

impl Job {
    /// The job that two words name: a layer, and a size as a decimal number.
    pub fn named(layer: &str, size: &str) -> Option<Job>
        ensures { IfSome result (λ job. name_of job.layer ≡ layer.now) }
    {
        let layer = Layer::named(layer)?;
        let size = size.parse::<u32>().ok()?;
        Some(Job { layer, size })
    }
}
