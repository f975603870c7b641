//! A report as one page: no script, nothing that is fetched, readable on paper and in black and white.

use crate::clauses::CLAUSES;
use crate::findings::{Ground, Section, Statement, Subject, SystemReport};
use crate::tables::{
    push_access, push_arrows, push_lines, push_objects, push_parts, push_responses, push_tests,
    push_untyped,
};
use std::alloc::{AllocError, Global};
use system_pictures::push_said;

/// What is before the name of the system.
const HEAD: &str =
    "<!DOCTYPE html>\n<html lang=\"en\">\n<head>\n<meta charset=\"utf-8\">\n<meta name=\"viewport\" content=\"width=device-width\">\n<title>";

/// How the page looks.
const STYLE: &str =
    "</title>\n<style>\nbody{font:11pt/1.45 Georgia,\"Times New Roman\",serif;color:#000;background:#fff;max-width:46em;margin:2em auto;padding:0 1em}\n\
     h1{font-size:1.5em;margin-bottom:.2em}\nh2{font-size:1.15em;border-bottom:1px solid #777;margin-top:1.8em}\nh3{font-size:1em;margin-bottom:.2em}\n\
     p,li{margin:.35em 0}\n.verdict{font-size:1.2em;font-weight:bold;border:2px solid #000;padding:.3em .6em}\n\
     .ground{font:.72em Helvetica,Arial,sans-serif;color:#333;border:1px solid #999;padding:0 .35em;white-space:nowrap;text-decoration:none}\n\
     .clause{border-style:solid;border-width:1px 1px 1px 4px}\n.measured{border-style:dashed}\n.premise{border-style:dotted}\n\
     table{border-collapse:collapse;font-size:.82em;margin:.6em 0}\n\
     th,td{border:1px solid #999;padding:.12em .45em;text-align:left;vertical-align:top;overflow-wrap:anywhere}\nth{background:#eee}\n\
     .number{text-align:right;font-variant-numeric:tabular-nums;white-space:nowrap}\n\
     code,pre,.digits{font:.88em Menlo,Consolas,\"DejaVu Sans Mono\",monospace;overflow-wrap:anywhere}\n\
     pre{white-space:pre-wrap;border:1px solid #999;padding:.5em}\nsvg{max-width:100%;height:auto}\n\
     @media print{body{max-width:none;margin:0;padding:0;font-size:9.5pt}h2,h3{break-after:avoid}tr,p,li{break-inside:avoid}th{background:none}}\n</style>\n\
     </head>\n<body>\n";

/// The sections of the page, with what is above them.
const SECTIONS: [(Section, &str, &str); 9] = [
    (Section::What, "what", "What this is"),
    (Section::Promise, "promise", "What holds of every run"),
    (
        Section::Responses,
        "responses",
        "How soon parts come to rest",
    ),
    (Section::Parts, "parts", "Who may change what others take"),
    (Section::Access, "access", "Who may do what"),
    (Section::Memory, "memory", "What lies where"),
    (Section::Tests, "tests", "What tests showed"),
    (Section::RestsOn, "rests-on", "What all this rests on"),
    (Section::Unsaid, "unsaid", "What nothing here says"),
];

/// A page that is being written.
#[derive(Drop)]
pub(crate) struct Page {
    pub(crate) alloc: Global,
    html: String,
}

impl Page {
    /// A page on the system of this name, whose title ends so.
    pub(crate) fn begin(alloc: Global, name: &str, verdict: &str) -> Result<Page, AllocError> {
        let mut page = Page {
            alloc,
            html: String::from_str(alloc, HEAD)?,
        };
        page.push_said(name)?;
        page.push_raw(": ")?;
        page.push_raw(verdict)?;
        page.push_raw(STYLE)?;
        page.push_raw("<h1>")?;
        page.push_said(name)?;
        page.push_raw("</h1>\n")?;
        Ok(page)
    }

    /// The whole page.
    pub(crate) fn end(mut self) -> Result<String, AllocError> {
        self.push_raw("</body>\n</html>\n")?;
        Ok(self.html)
    }

    /// Puts what has signs of its own.
    pub(crate) fn push_raw(&mut self, html: &str) -> Result<(), AllocError> {
        self.html.push_str(html)
    }

    /// Puts what others wrote, as text.
    pub(crate) fn push_said(&mut self, said: &str) -> Result<(), AllocError> {
        push_said(&mut self.html, said)
    }

    /// Puts a number.
    pub(crate) fn push_number(&mut self, number: u64) -> Result<(), AllocError> {
        write!(&mut self.html, "{number}")
    }

    /// Puts an address.
    pub(crate) fn push_address(&mut self, address: u64) -> Result<(), AllocError> {
        write!(&mut self.html, "{address:#x}")
    }

    /// Puts a row of two cells: what is meant, and what others wrote.
    fn push_row(&mut self, meant: &str, class: &str, said: &str) -> Result<(), AllocError> {
        self.push_raw("<tr><th>")?;
        self.push_raw(meant)?;
        self.push_raw("</th><td class=\"")?;
        self.push_raw(class)?;
        self.push_raw("\">")?;
        self.push_said(said)?;
        self.push_raw("</td></tr>\n")
    }

    /// Puts what is reported on, and by what.
    pub(crate) fn push_subject(&mut self, subject: &Subject<'_>) -> Result<(), AllocError> {
        self.push_raw("<table>\n")?;
        self.push_row("system", "digits", subject.name)?;
        if !subject.sha256.is_empty() {
            self.push_row("SHA-256 of the image", "digits", subject.sha256.as_str())?;
        }
        self.push_row("verified by", "digits", subject.program)?;
        self.push_row("again by", "digits", subject.command)?;
        self.push_raw("</table>\n")
    }

    /// Puts what a sentence stands on.
    fn push_ground(&mut self, ground: Ground) -> Result<(), AllocError> {
        match ground {
            Ground::Clause(clause) => {
                let number = clause.number();
                write!(
                    &mut self.html,
                    " <a class=\"ground clause\" href=\"#clause-{number}\">proved: "
                )?;
                self.push_raw(clause.name())?;
                self.push_raw("</a>")
            }
            Ground::Count => self.push_raw(" <span class=\"ground\">counted in this file</span>"),
            Ground::Measurement => {
                self.push_raw(" <span class=\"ground measured\">measured</span>")
            }
            Ground::Premise => self.push_raw(" <span class=\"ground premise\">premise</span>"),
        }
    }

    /// Puts the sentences of a section.
    fn push_statements(
        &mut self,
        section: Section,
        statements: &[Statement],
    ) -> Result<(), AllocError> {
        for statement in statements {
            if statement.section == section {
                self.push_raw("<p>")?;
                self.push_said(statement.text.as_str())?;
                self.push_ground(statement.ground)?;
                self.push_raw("</p>\n")?;
            }
        }
        Ok(())
    }

    /// Puts a section: its sentences, and its tables.
    fn push_section(
        &mut self,
        section: Section,
        place: &str,
        title: &str,
        report: &SystemReport<'_>,
    ) -> Result<(), AllocError> {
        self.push_raw("<h2 id=\"")?;
        self.push_raw(place)?;
        self.push_raw("\">")?;
        self.push_raw(title)?;
        self.push_raw("</h2>\n")?;
        self.push_statements(section, report.statements.as_slice())?;
        self.push_tables(section, report)
    }

    /// Puts the tables of a section.
    fn push_tables(
        &mut self,
        section: Section,
        report: &SystemReport<'_>,
    ) -> Result<(), AllocError> {
        let facts = &report.facts;
        match section {
            Section::Promise => push_parts(self, &facts.declared),
            Section::Responses => push_responses(self, facts.responding.rows.as_slice()),
            Section::Parts => push_arrows(self, &facts.sharing),
            Section::Access => {
                self.push_raw(facts.picture.as_str())?;
                push_lines(self, &facts.declared)?;
                push_access(self, &facts.declared, facts.sharing.access.as_slice())
            }
            Section::Memory => {
                push_untyped(self, facts.memory.untyped.as_slice())?;
                push_objects(self, facts.memory.objects.as_slice())
            }
            Section::Tests => match &facts.tests {
                Some(tests) => push_tests(self, tests),
                None => Ok(()),
            },
            Section::What | Section::RestsOn | Section::Unsaid => Ok(()),
        }
    }

    /// Puts the clauses that sentences name.
    fn push_clauses(&mut self) -> Result<(), AllocError> {
        self.push_raw(
            "<h2 id=\"clauses\">The clauses</h2>\n<p>Each is a clause of a public function, which the gate of the repository proves; \
             the page that the link names says more of it.</p>\n<table>\n<tr><th>clause</th><th>what it promises</th></tr>\n",
        )?;
        for clause in CLAUSES {
            let number = clause.number();
            write!(&mut self.html, "<tr id=\"clause-{number}\"><td><a href=\"")?;
            self.push_raw(clause.link())?;
            self.push_raw("\">")?;
            self.push_raw(clause.name())?;
            self.push_raw("</a></td><td>")?;
            self.push_raw(clause.says())?;
            self.push_raw("</td></tr>\n")?;
        }
        self.push_raw("</table>\n")
    }
}

/// A report on an accepted image as a page.
///
/// # Errors
///
/// Memory may be refused.
pub fn page_of(alloc: Global, report: &SystemReport<'_>) -> Result<String, AllocError> {
    let mut page = Page::begin(alloc, report.subject.name, "accepted")?;
    page.push_raw("<p class=\"verdict\">Accepted</p>\n")?;
    page.push_subject(&report.subject)?;
    for (section, place, title) in SECTIONS {
        page.push_section(section, place, title, report)?;
    }
    page.push_clauses()?;
    page.end()
}
