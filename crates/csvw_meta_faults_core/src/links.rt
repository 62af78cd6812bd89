//! The faults of texts that are resolved against a base (Metadata Vocabulary for Tabular Data, section 5.1.2).
ghost use Rattle.csvw_meta_faults_core.specs.Sole.{url_has_one, id_has_one};

use crate::finder::Finder;
use crate::sole::{Sole, find_sole};
use csvw_meta_core::{IdReader, MetaFault, Part, UrlReader};
use std::alloc::AllocError;

impl<'a> Sole for UrlReader<'a> {
    ghost has_one = { λ r. url_has_one r.base.now };
}

impl<'a> Finder for UrlReader<'a> {
    fn find(&self, part: &Part, faults: &mut Vec<MetaFault>) -> Result<(), AllocError> {
        find_sole(part, self, faults)
    }
}

impl<'a> Sole for IdReader<'a> {
    ghost has_one = { λ r. id_has_one r.base.now };
}

impl<'a> Finder for IdReader<'a> {
    fn find(&self, part: &Part, faults: &mut Vec<MetaFault>) -> Result<(), AllocError> {
        find_sole(part, self, faults)
    }
}
