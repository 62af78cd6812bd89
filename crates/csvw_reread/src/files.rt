//! Which file has which table.

use csvw_columns::TablePlan;
use percent_encoding::percent_decode_str;
use std::alloc::{AllocError, Global};
use std::path::Path;

/// Returns a URL without its query and its fragment.
fn without_query(url: &str) -> &str {
    let url = match url.split_once('#') {
        Some((front, _)) => front,
        None => url,
    };
    match url.split_once('?') {
        Some((front, _)) => front,
        None => url,
    }
}

/// Returns the name of the file that a table's URL names: its last part, with its triplets decoded. Returns
/// `AllocError` if memory runs out.
fn name_of(alloc: Global, table: &TablePlan) -> Result<String, AllocError> {
    let url = without_query(table.url.iri().as_str());
    let last = Path::new(url).file_name().unwrap_or("");
    let name = percent_decode_str(last).decode_utf8_lossy(alloc)?;
    String::from_str(alloc, name.as_str())
}

/// Returns the path beside the document of a table's file.
fn path_beside(alloc: Global, meta: &str, table: &TablePlan) -> Result<String, AllocError> {
    let name = name_of(alloc, table)?;
    match Path::new(meta).parent() {
        Some(folder) => Ok(folder.join(alloc, name.as_str())?.into_string()),
        None => Ok(name),
    }
}

/// Returns the place of the first file of this name that no table has yet.
fn place_of(files: &[&str], taken: &[bool], name: &str) -> Option<usize> {
    for (i, (file, is_taken)) in files.iter().zip(taken).enumerate() {
        if !*is_taken && Path::new(file).file_name() == Some(name) {
            return Some(i);
        }
    }
    None
}

/// Returns the place of the first file that no table has yet.
fn first_left(taken: &[bool]) -> Option<usize> {
    taken.iter().position(|is_taken| !*is_taken)
}

/// Takes the file of a table's name, if there is one that no table has yet. Returns its place.
fn take_named(
    alloc: Global,
    files: &[&str],
    taken: &mut [bool],
    table: &TablePlan,
) -> Result<Option<usize>, AllocError> {
    let name = name_of(alloc, table)?;
    let place = place_of(files, taken, name.as_str());
    take(taken, place);
    Ok(place)
}

/// Takes a file that is left for each table that has none.
fn take_left(places: &mut [Option<usize>], taken: &mut [bool]) {
    for place in places {
        if place.is_none() {
            *place = first_left(taken);
            take(taken, *place);
        }
    }
}

/// Returns the place of the file for each table: the file of the table's name, else the first file that is left.
fn places(
    alloc: Global,
    files: &[&str],
    tables: &[TablePlan],
) -> Result<Vec<Option<usize>>, AllocError> {
    let mut taken = vec![in alloc; false; files.len()]?;
    let mut places = Vec::new(alloc);
    for table in tables {
        places.push(take_named(alloc, files, taken.as_mut_slice(), table)?)?;
    }
    take_left(places.as_mut_slice(), taken.as_mut_slice());
    Ok(places)
}

/// Marks the file at a place as taken.
fn take(taken: &mut [bool], place: Option<usize>) {
    if let Some(i) = place {
        if let Some(is_taken) = taken.get_mut(i) {
            *is_taken = true;
        }
    }
}

/// Returns the path of each table's file, which is empty if there is none. Files that are given are taken by
/// their names first, and in their order else. If none is given, each is beside the document, under the name that ends the
/// table's URL. Returns `AllocError` if memory runs out.
pub fn paths(
    alloc: Global,
    meta: &str,
    files: &[&str],
    tables: &[TablePlan],
) -> Result<Vec<String>, AllocError> {
    if files.is_empty() {
        return paths_beside(alloc, meta, tables);
    }
    let places = places(alloc, files, tables)?;
    paths_at(alloc, files, places.as_slice())
}

/// Returns the path of each table's file. Files that are given are in the order of the tables. If none is given, each is
/// beside the document, under the name that ends the table's URL. Returns `AllocError` if memory runs out.
pub fn paths_in_order(
    alloc: Global,
    meta: &str,
    files: &[&str],
    tables: &[TablePlan],
) -> Result<Vec<String>, AllocError> {
    if files.is_empty() {
        return paths_beside(alloc, meta, tables);
    }
    let mut paths = Vec::new(alloc);
    for file in files {
        paths.push(String::from_str(alloc, file)?)?;
    }
    Ok(paths)
}

/// Returns copies of the paths at these places, which are empty if there is no place.
fn paths_at(
    alloc: Global,
    files: &[&str],
    places: &[Option<usize>],
) -> Result<Vec<String>, AllocError> {
    let mut paths = Vec::new(alloc);
    for place in places {
        paths.push(String::from_str(alloc, path_at(files, *place))?)?;
    }
    Ok(paths)
}

/// Returns the path at a place, which is empty if there is no place.
fn path_at<'a>(files: &[&'a str], place: Option<usize>) -> &'a str {
    let Some(i) = place else {
        return "";
    };
    match files.get(i) {
        Some(path) => *path,
        None => "",
    }
}

/// Returns the path beside the document of each table's file.
fn paths_beside(
    alloc: Global,
    meta: &str,
    tables: &[TablePlan],
) -> Result<Vec<String>, AllocError> {
    let mut paths = Vec::new(alloc);
    for table in tables {
        paths.push(path_beside(alloc, meta, table)?)?;
    }
    Ok(paths)
}

/// Returns the names of the tables' files by their URLs.
fn names_of(alloc: Global, tables: &[TablePlan]) -> Result<Vec<String>, AllocError> {
    let mut names = Vec::new(alloc);
    for table in tables {
        names.push(name_of(alloc, table)?)?;
    }
    Ok(names)
}

/// Whether the file at a place has this name.
fn is_named(paths: &[String], place: usize, name: &str) -> bool {
    match paths.get(place) {
        Some(path) => Path::new(path.as_str()).file_name() == Some(name),
        None => false,
    }
}

/// Returns the place of a table which has the file of the table at a place, and whose file that table has.
fn other_of(names: &[String], paths: &[String], place: usize, name: &str) -> Option<usize> {
    for (other, other_name) in names.iter().enumerate() {
        let is_swapped = is_named(paths, place, other_name.as_str())
            && is_named(paths, other, name)
            && other_name.as_str() != name;
        if is_swapped {
            return Some(other);
        }
    }
    None
}

/// Returns the places, from 0, of two tables whose files look swapped: each has the file that the URL of the other names.
/// Returns `AllocError` if memory runs out.
pub fn swapped(
    alloc: Global,
    tables: &[TablePlan],
    paths: &[String],
) -> Result<Option<(usize, usize)>, AllocError> {
    let names = names_of(alloc, tables)?;
    for (place, name) in names.iter().enumerate() {
        if let Some(other) = other_of(names.as_slice(), paths, place, name.as_str()) {
            return Ok(Some((place, other)));
        }
    }
    Ok(None)
}
