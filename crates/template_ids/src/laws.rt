//! Laws of names.
ghost use Rattle.template_ids.specs.FileNames.{FilesAreNamed};
ghost use Rattle.template_ids.specs.Filled.{NamesGoOn};

/// Where the greatest number and time give a valid file name, each number and each time do.
pub fn files_are_named()
    ensures { FilesAreNamed }
{}

/// Where `Filled::goes_on_in_path` says so, what follows the common prefix of the names is a path for each number and each
/// time.
pub fn names_go_on()
    ensures { NamesGoOn }
{}
