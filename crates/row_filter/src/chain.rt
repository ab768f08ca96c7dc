//! From which rows each dataset is made.

ghost use Rattle.std.specs.Prelude.{◌≡◌, ◌≢◌, ◌<◌, ◌≤◌, ◌^◌, length, option_map};
ghost use Rattle.row_filter.specs.Chains.{base_of, filter_at, form_of, level_at, links_of, parent_at};
ghost use Rattle.row_filter.specs.Lines.{AreOrdered, derives as derives_from};

use crate::filter::Filter;
use item_lists::Listed;
use pool_ledger::Level;
use row_form::Form;

/// A dataset that is made from another one: of its rows those that the filter keeps, or all. Where it has a
/// level, its rows are kept as blocks.
#[derive(Drop)]
pub struct Link {
    /// The dataset that it is made from: 0 is the input, and the others are numbered as they stand.
    pub parent: u32,
    /// Which rows it keeps; without one all.
    pub filter: Option<Filter>,
    /// Where its blocks are kept; without a level nowhere.
    pub level: Option<Level>,
}

/// The datasets of a plan from number 1 on, and the form of the input's landed rows.
#[derive(Drop)]
pub struct Chain {
    links: Listed<Link>,
    form: Form,
    base: u32,
}

impl Chain {
    /// The chain of these datasets, whose blocks have the datasets' own numbers. Takes no memory. Plans make
    /// it.
    pub fn of(links: Listed<Link>, form: Form) -> Chain
        ensures links { links_of result ≡ links }
        ensures form { form_of result ≡ form }
        ensures base { base_of result ≡ 0 }
    {
        Chain {
            links,
            form,
            base: 0,
        }
    }

    /// The same chain, whose blocks name the input by this number and the others by those behind it, so that
    /// the blocks of several jobs are told apart. Takes no memory.
    pub fn based(self, dataset: u32) -> Chain
        requires { dataset ≤ 4096 }
        ensures links { links_of result ≡ links_of self }
        ensures form { form_of result ≡ form_of self }
        ensures base { base_of result ≡ dataset }
    {
        let Chain { links, form, .. } = self;
        Chain {
            links,
            form,
            base: dataset,
        }
    }

    /// The number by which the chain's blocks name the input.
    pub fn base(&self) -> u32
        ensures { result ≡ base_of self.now }
    {
        self.base
    }

    /// How many datasets there are beside the input.
    pub fn datasets(&self) -> u32
        requires { length (links_of self.now) < 2 ^ 32 }
        ensures { result ≡ length (links_of self.now) }
    {
        self.links.items().len() as u32
    }

    /// The dataset that this one is made from.
    pub fn parent(&self, dataset: u32) -> u32
        requires made { dataset ≢ 0 }
        requires there { dataset ≤ length (links_of self.now) }
        ensures { result ≡ parent_at self.now dataset }
    {
        self.links.items()[dataset as usize - 1].parent
    }

    /// Whether this dataset has a level, and which. The input has none.
    pub fn level(&self, dataset: u32) -> Option<Level>
        requires there { dataset ≤ length (links_of self.now) }
        ensures { result ≡ level_at self.now dataset }
    {
        if dataset == 0 {
            return None;
        }
        self.links.items()[dataset as usize - 1].level
    }

    /// The filter that keeps this dataset's rows, if one does. The input has none.
    pub fn filter(&self, dataset: u32) -> Option<&Filter>
        requires there { dataset ≤ length (links_of self.now) }
        ensures { option_map (λ filter. filter.now) result ≡ filter_at self.now dataset }
    {
        if dataset == 0 {
            return None;
        }
        self.links.items()[dataset as usize - 1].filter.as_ref()
    }

    /// Whether a dataset is another one or derives from it.
    pub fn derives(&self, dataset: u32, from: u32) -> bool
        requires ordered { AreOrdered (links_of self.now) }
        requires there { dataset ≤ length (links_of self.now) }
        ensures { result ≡ derives_from (links_of self.now) dataset from }
    {
        let mut at = dataset;
        // A dataset is made from one with a lower number.
        while at > from {
            at = self.parent(at);
        }
        at == from
    }

    /// The form of the input's landed rows.
    pub fn form(&self) -> &Form
        ensures { result.now ≡ form_of self.now }
    {
        &self.form
    }
}
