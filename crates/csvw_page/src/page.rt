//! `Page`: a page in one of three forms, which goes out piece by piece.

use crate::form::{Color, Form};
use crate::halt::Halt;
use crate::line::RowShown;
use crate::shown::{FaultShown, MoreShown, SpotShown, StopShown, Summary, UnknownShown};
use crate::{html_form, json_form, text_form};
use csvw_streams::{Counted, write_out};
use std::alloc::{AllocError, Global};
use std::io::Write;

/// A page, and what of it is not sent yet.
#[derive(Drop)]
pub struct Page {
    /// The allocator of its memory.
    pub alloc: Global,
    /// The text that is not sent yet.
    lines: String,
    /// The room for the row of a fault.
    row: RowShown,
    /// Its form.
    pub form: Form,
    /// Whether its lines have colours.
    color: Color,
    /// How many objects it has, in JSON.
    objects: u64,
    /// How many stops it has.
    stops: u64,
}

impl Page {
    /// Makes an empty page.
    pub fn new(alloc: Global, form: Form, color: Color) -> Page {
        Page {
            alloc,
            lines: String::new(alloc),
            row: RowShown::new(alloc),
            form,
            color,
            objects: 0,
            stops: 0,
        }
    }

    /// Sends the text that is not sent yet. Returns `Halt::Write` if the stream fails.
    pub fn send<W: Write>(&mut self, out: &mut Counted<W>) -> Result<(), Halt> {
        let sent = write_out(out, self.lines.as_bytes());
        self.lines.clear();
        match sent {
            Ok(()) => Ok(()),
            Err(_) => Err(Halt::Write),
        }
    }

    /// Begins the page on the document at a path. There is a summary if the document was read. Returns `AllocError` if
    /// memory runs out.
    pub fn begin(&mut self, meta: &str, summary: Option<&Summary<'_>>) -> Result<(), AllocError> {
        match self.form {
            Form::Text => Ok(()),
            Form::Html => html_form::push_begin(&mut self.lines, meta, summary),
            Form::Json => self.lines.push_str("[\n"),
        }
    }

    /// Adds a property of the document that is ignored. Returns `AllocError` if memory runs out.
    pub fn warning(&mut self, shown: &UnknownShown<'_>) -> Result<(), AllocError> {
        match self.form {
            Form::Text => text_form::push_unknown(&mut self.lines, shown, self.color),
            Form::Html => html_form::push_unknown(&mut self.lines, shown),
            Form::Json => {
                self.begin_object()?;
                json_form::push_unknown(&mut self.lines, shown)
            }
        }
    }

    /// Begins the properties of the document that are ignored. Returns `AllocError` if memory runs out.
    pub fn begin_warnings(&mut self) -> Result<(), AllocError> {
        match self.form {
            Form::Text | Form::Json => Ok(()),
            Form::Html => html_form::push_warnings(&mut self.lines),
        }
    }

    /// Adds how many properties of the document at a path are ignored whose places aren't known. Returns
    /// `AllocError` if memory runs out.
    pub fn unplaced(&mut self, meta: &str, times: u64) -> Result<(), AllocError> {
        match self.form {
            Form::Text => text_form::push_unplaced(&mut self.lines, meta, times, self.color),
            Form::Html => html_form::push_unplaced(&mut self.lines, meta, times),
            Form::Json => {
                for _ in 0..times {
                    self.begin_object()?;
                    json_form::push_unplaced(&mut self.lines, meta)?;
                }
                Ok(())
            }
        }
    }

    /// Begins the faults of one code in one column. Returns `AllocError` if memory runs out.
    pub fn heading(&mut self, shown: &SpotShown<'_>) -> Result<(), AllocError> {
        match self.form {
            Form::Text | Form::Json => Ok(()),
            Form::Html => html_form::push_heading(&mut self.lines, shown),
        }
    }

    /// Adds a fault, with its row. Returns `AllocError` if memory runs out.
    pub fn fault(&mut self, shown: &FaultShown<'_>) -> Result<(), AllocError> {
        match self.form {
            Form::Text => text_form::push_fault(&mut self.lines, &mut self.row, shown, self.color),
            Form::Html => html_form::push_fault(&mut self.lines, &mut self.row, shown),
            Form::Json => {
                self.begin_object()?;
                json_form::push_fault(&mut self.lines, shown)
            }
        }
    }

    /// Adds how many faults of one code in one column are not shown. Returns `AllocError` if memory runs out.
    pub fn rest(&mut self, shown: &SpotShown<'_>) -> Result<(), AllocError> {
        match self.form {
            Form::Text => Ok(()),
            Form::Html => html_form::push_rest(&mut self.lines, shown.times),
            Form::Json => {
                self.begin_object()?;
                json_form::push_rest(&mut self.lines, shown)
            }
        }
    }

    /// Adds why the document or a table wasn't read. A document may have several reasons. Returns `AllocError` if memory
    /// runs out.
    pub fn stop(&mut self, shown: &StopShown<'_>) -> Result<(), AllocError> {
        self.begin_stop()?;
        match self.form {
            Form::Text => text_form::push_stop(&mut self.lines, shown, self.color),
            Form::Html => html_form::push_stop(&mut self.lines, shown),
            Form::Json => json_form::push_stop(&mut self.lines, shown),
        }
    }

    /// Adds how many faults of one code in the document at a path are not shown. Returns `AllocError` if memory runs out.
    pub fn more_stops(&mut self, shown: &MoreShown<'_>) -> Result<(), AllocError> {
        self.begin_stop()?;
        match self.form {
            Form::Text => text_form::push_more(&mut self.lines, shown, self.color),
            Form::Html => html_form::push_more(&mut self.lines, shown),
            Form::Json => json_form::push_more(&mut self.lines, shown),
        }
    }

    /// Ends the page, with the summary of what was found. Returns `AllocError` if memory runs out.
    pub fn end(&mut self, summary: Option<&Summary<'_>>) -> Result<(), AllocError> {
        match self.form {
            Form::Text => match summary {
                Some(summary) => text_form::push_summary(&mut self.lines, summary),
                None => Ok(()),
            },
            Form::Html => self.lines.push_str("</main>\n</body>\n</html>\n"),
            Form::Json => self.lines.push_str(match self.objects {
                0 => "]\n",
                _ => "\n]\n",
            }),
        }
    }

    /// Begins a stop: the heading before the first, in HTML, and an object, in JSON.
    fn begin_stop(&mut self) -> Result<(), AllocError> {
        let is_first = self.stops == 0;
        self.stops = self.stops.saturating_add(1);
        match self.form {
            Form::Html if is_first => html_form::push_stops(&mut self.lines),
            Form::Text | Form::Html => Ok(()),
            Form::Json => self.begin_object(),
        }
    }

    /// Begins an object of a JSON array.
    fn begin_object(&mut self) -> Result<(), AllocError> {
        if self.objects > 0 {
            self.lines.push_str(",\n")?;
        }
        self.objects = self.objects.saturating_add(1);
        Ok(())
    }
}
